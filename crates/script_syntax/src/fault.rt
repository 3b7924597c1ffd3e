ghost use Rattle.std.specs.Prelude.{◌≡◌};
ghost use Rattle.script_syntax.specs.declared.fault.ReadScript.TheVariants.{Memory, Syntax};

use std::alloc::{AllocError, AllocFailed};
use thiserror::Error;

/// What is wrong where a text stops being a script.
#[derive(Clone, Copy, Debug, PartialEq, Eq, Error)]
pub enum SyntaxKind {
    /// A byte outside of a comment begins no token and is no blank.
    #[error("no token begins with this byte")]
    Byte,
    /// A token that does not continue any script.
    #[error("this token may not stand here")]
    Token,
    /// The text ends, and is no whole script.
    #[error("the script is not whole")]
    End,
    /// A word, a number or a file word has more than 64 bytes.
    #[error("the word is too long")]
    Long,
    /// The 1,001st entry of `binding`, or the 1,001st statement of both sections together.
    #[error("there are too many entries or statements")]
    Many,
    /// The 257th opening bracket, comma or operator of one statement.
    #[error("the statement is too large")]
    Large,
    /// A number of `timer` that may not stand there.
    #[error("no number that may stand here in a timer")]
    Number,
}

/// The first fault of a text: its line and its column, which both count from 1, and what it is. Columns count bytes.
#[derive(Clone, Copy, Debug, PartialEq, Eq, Error)]
#[error("line {line}, column {column}: {kind}")]
pub struct SyntaxFault {
    pub line: u32,
    pub column: u32,
    pub kind: SyntaxKind,
}

/// Why a text gave no tree.
#[derive(Clone, Copy, Debug, PartialEq, Eq, Error)]
pub enum ReadScript {
    /// The text is no script: its first fault.
    #[error(transparent)]
    Syntax(SyntaxFault),
    /// There was no memory for the tree.
    #[error("out of memory")]
    Memory,
}

impl From<SyntaxFault> for ReadScript {
    ghost from_gives = { λ fault e. e ≡ Syntax fault };

    fn from(fault: SyntaxFault) -> ReadScript {
        ReadScript::Syntax(fault)
    }
}

impl From<AllocError> for ReadScript {
    ghost from_gives = { λ _ e. e ≡ Memory };

    fn from(_e: AllocError) -> ReadScript {
        ReadScript::Memory
    }
}

impl<T: Drop> From<AllocFailed<T>> for ReadScript {
    ghost from_gives = { λ _ e. e ≡ Memory };

    fn from(_e: AllocFailed<T>) -> ReadScript {
        ReadScript::Memory
    }
}
