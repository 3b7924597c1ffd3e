ghost use Rattle.std.specs.Prelude.{◌≡◌, ◌+◌, ◌<◌, ◌≤◌, ◌^◌, length};
ghost use Rattle.script_syntax.specs.Places.{after_byte, after_bytes};
ghost use Rattle.script_syntax.specs.Spelling.{mode_after};

use crate::token::{Key, Mark, Token};

/// Where in a script the next token stands, which says what a token is there.
#[derive(Clone, Copy)]
pub enum Mode {
    /// Before `areamap`, in no file place.
    Bindings,
    /// Behind the `=` of an entry, where a file word or a decimal is due.
    BoundFile,
    /// Behind `areamap`, where a file word is due.
    AreaFile,
    /// Behind the area.
    Sections,
}

impl Mode {
    /// Where the next token stands, behind this one.
    pub fn after(self, token: &Token) -> Mode
        ensures { result ≡ mode_after self token.now }
    {
        match self {
            Mode::Bindings => match token {
                Token::Mark(Mark::Equal) => Mode::BoundFile,
                Token::Key(Key::Areamap) => Mode::AreaFile,
                _ => Mode::Bindings,
            },
            Mode::BoundFile => Mode::Bindings,
            Mode::AreaFile | Mode::Sections => Mode::Sections,
        }
    }
}

/// A place in a text: its line and its column, in bytes, which both count from 1.
#[derive(Clone, Copy)]
pub struct Place {
    pub line: u32,
    pub column: u32,
}

impl Place {
    /// The place behind these bytes, which begin at this place.
    pub fn after(self, bytes: &[u8]) -> Place
        requires line { self.line + length bytes.now < 2 ^ 32 }
        requires column { self.column + length bytes.now < 2 ^ 32 }
        ensures place { result ≡ after_bytes self bytes.now }
        ensures line { result.line ≤ self.line + length bytes.now }
        ensures column { result.column ≤ self.column + length bytes.now }
    {
        let mut place = self;
        for b in bytes {
            if *b == b'\n' {
                place.line += 1;
                place.column = 1;
            } else {
                place.column += 1;
            }
        }
        place
    }
}
