ghost use Rattle.std.specs.Prelude.{◌≡◌, ◌<◌, ◌≤◌, ◌+◌, ◌^◌, length, take, drop, IfOk};
ghost use Rattle.script_syntax.specs.Faults.{place_after_token};
ghost use Rattle.script_syntax.specs.Places.{after_bytes};
ghost use Rattle.script_syntax.specs.inside.Scanner.{IsGapless, IsNextOf, IsRoomy, KeepsRoom, gap_len, scan_of};

use crate::formula::Refused;
use crate::lexer::{comment_len, token_at};
use crate::place::{Mode, Place};
use crate::token::Token;
use std::alloc::{AllocError, Global};
use text_base::is_blank;

/// A token, the place of its first byte, and how many bytes it has.
#[derive(Drop)]
pub struct Placed {
    pub token: Token,
    pub place: Place,
    pub len: usize,
}

impl Placed {
    /// The place behind the token.
    pub fn end(&self) -> Place
        requires { self.now.place.column + self.now.len < 2 ^ 32 }
        ensures { result ≡ place_after_token self.now }
    {
        Place {
            line: self.place.line,
            column: self.place.column + self.len as u32,
        }
    }
}

/// What stands next in a text.
#[derive(Drop)]
pub enum Next {
    Token(Placed),
    /// A byte that begins no token.
    Byte(Place),
    End,
}

/// A text that is read token by token: what is left of it, and where that begins.
#[derive(Drop)]
pub struct Scanner<'a> {
    pub rest: &'a [u8],
    pub mode: Mode,
    pub place: Place,
}

// How many bytes a blank or a comment at the front has, or 0.
fn gap_len(text: &[u8]) -> usize
    ensures value { result ≡ gap_len text.now }
    ensures within { result ≤ length text.now }
{
    let Some((first, rest)) = text.split_first() else {
        return 0;
    };
    if is_blank(*first) {
        1
    } else if *first == b'#' {
        1 + comment_len(rest)
    } else {
        0
    }
}

impl<'a> Scanner<'a> {
    /// The text from its first byte on.
    pub fn new(text: &'a [u8]) -> Scanner<'a>
        ensures rest { result.rest.now ≡ text.now }
        ensures mode { result.mode ≡ Mode.Bindings }
        ensures place { result.place ≡ record { line = 1; column = 1 } }
    {
        Scanner {
            rest: text,
            mode: Mode::Bindings,
            place: Place { line: 1, column: 1 },
        }
    }

    // Goes on behind so many bytes.
    fn pass(&mut self, len: usize)
        requires within { len ≤ length self.old.rest.now }
        requires room { IsRoomy self.old }
        ensures rest { self.new.rest.now ≡ drop len self.old.rest.now }
        ensures place { self.new.place ≡ after_bytes self.old.place (take len self.old.rest.now) }
        ensures mode { self.new.mode ≡ self.old.mode }
        ensures room { KeepsRoom self.old self.new }
    {
        let (passed, rest) = self.rest.split_at(len);
        self.place = self.place.after(passed);
        self.rest = rest;
    }

    // Goes on behind blanks and comments.
    fn skip_gaps(&mut self)
        requires { IsRoomy self.old }
        ensures same { scan_of self.new ≡ scan_of self.old }
        ensures none { IsGapless self.new.rest.now }
        ensures room { KeepsRoom self.old self.new }
    {
        let mut len = gap_len(self.rest);
        'gaps: while len > 0 {
            self.pass(len);
            len = gap_len(self.rest);
        }
    }

    /// Takes the next token.
    pub fn next(&mut self, alloc: Global) -> Result<Next, AllocError>
        requires { IsRoomy self.old }
        ensures next { IfOk result (IsNextOf self.old self.new) }
        ensures room { KeepsRoom self.old self.new }
    {
        self.skip_gaps();
        if self.rest.is_empty() {
            return Ok(Next::End);
        }
        let place = self.place;
        match token_at(alloc, self.mode, self.rest) {
            Ok(found) => {
                self.pass(found.len);
                self.mode = self.mode.after(&found.token);
                Ok(Next::Token(Placed {
                    token: found.token,
                    place,
                    len: found.len,
                }))
            }
            Err(Refused::Token) => Ok(Next::Byte(place)),
            Err(Refused::Memory) => Err(AllocError),
        }
    }
}
