ghost use Rattle.std.specs.Prelude.{◌≡◌, IfOk};

use std::alloc::{AllocError, Global};
use std::marker::Model;

/// A list of bytes: a name, a file word or the spelling of a number. Contracts see the list.
#[derive(Debug, Drop)]
pub struct Word {
    text: Vec<u8>,
}

impl Model for Word {
    ghost use Rattle.std.specs.Prelude.{ℕ, List};

    ghost Value = { List ℕ };

    ghost view = { λ w. w.text.items };
}

impl Word {
    /// The word of these bytes.
    pub fn new(alloc: Global, text: &[u8]) -> Result<Word, AllocError>
        ensures { IfOk result (λ word. word ≡ text.now) }
    {
        Ok(Word {
            text: Vec::from_slice(alloc, text)?,
        })
    }

    /// Its bytes.
    pub fn bytes(&self) -> &[u8]
        ensures { result.now ≡ self.now }
    {
        self.text.as_slice()
    }

    /// An equal word.
    pub fn twin(&self, alloc: Global) -> Result<Word, AllocError>
        ensures { IfOk result (λ word. word ≡ self.now) }
    {
        Word::new(alloc, self.bytes())
    }
}
