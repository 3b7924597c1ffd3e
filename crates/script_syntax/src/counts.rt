ghost use Rattle.std.specs.Prelude.{◌≡◌, ◌<◌, ◌+◌, ◌^◌, [], None};
ghost use Rattle.script_syntax.specs.Listed.{counts_behind, is_bad_timer, is_entry_too_many, is_statement_too_many, is_before_statement, is_counted, is_last_step, is_long, is_no_timer, is_section, is_semicolon, listed_by};
ghost use Rattle.script_syntax.specs.inside.Counting.{AreBelow, counted_after, statements_after, timer_after, counts_after};

use crate::fault::SyntaxKind;
use crate::token::{Key, Mark, Token};
use text_base::{LONGEST_WORD, whole_number};

/// The most entries, and the most statements of both sections together.
const MOST_STATEMENTS: u32 = 1_000;

/// The most opening brackets, commas and operators of a statement.
const MOST_COUNTED: u32 = 256;

/// The last step that a timer may have at most.
const MOST_STEPS: u64 = 100_000;

/// What is counted of the tokens before one.
#[derive(Clone, Copy)]
pub struct Counts {
    /// Whether `areamap` is among them.
    pub covered: bool,
    /// How many are `;`.
    pub semicolons: u32,
    /// Whether the last one is `;`.
    pub ended: bool,
    /// How many are `;` behind the first section's word, where there is one.
    pub statements: Option<u32>,
    /// Whether the last one is `;` or a section's word.
    pub begins: bool,
    /// How many count behind the last `;` or section's word.
    pub counted: u32,
    /// How many stand behind the last `timer`, where there is one.
    pub timer: Option<u32>,
}

fn is_semicolon(token: &Token) -> bool
    ensures { result ≡ is_semicolon token.now }
{
    matches!(token, Token::Mark(Mark::Semicolon))
}

fn is_section(token: &Token) -> bool
    ensures { result ≡ is_section token.now }
{
    matches!(token, Token::Key(Key::Initial | Key::Dynamic))
}

fn is_before_statement(token: &Token) -> bool
    ensures { result ≡ is_before_statement token.now }
{
    is_semicolon(token) || is_section(token)
}

// An opening bracket, a comma or an operator.
fn is_counted(token: &Token) -> bool
    ensures { result ≡ is_counted token.now }
{
    matches!(
        token,
        Token::Operator(_) | Token::Not | Token::Mark(Mark::Open | Mark::Comma)
    )
}

// A word, a number or a file word that is too long.
fn is_long(token: &Token) -> bool
    ensures { result ≡ is_long token.now }
{
    match token {
        Token::Name(word) | Token::Number(word) | Token::File(word) => {
            word.bytes().len() > LONGEST_WORD
        }
        _ => false,
    }
}

// Whether a number may be the last step of a timer.
fn is_last_step(word: &[u8]) -> bool
    ensures { result ≡ is_last_step word.now }
{
    match whole_number(word, 6) {
        Some(steps) => 1 <= steps && steps <= MOST_STEPS,
        None => false,
    }
}

// Whether a number, where so many tokens stand between it and `timer`, may not stand there.
fn is_no_timer(count: u32, word: &[u8]) -> bool
    ensures { result ≡ is_no_timer count word.now }
{
    if count == 0 {
        word != b"1".as_slice()
    } else if count == 1 {
        !is_last_step(word)
    } else if count == 2 {
        word != b"1".as_slice()
    } else {
        false
    }
}

impl Counts {
    /// What is counted where no token stands before.
    pub fn new() -> Counts
        ensures { result ≡ counts_behind [] }
    {
        Counts {
            covered: false,
            semicolons: 0,
            ended: false,
            statements: None,
            begins: false,
            counted: 0,
            timer: None,
        }
    }

    fn is_bad_timer(&self, token: &Token) -> bool
        ensures { result ≡ is_bad_timer self.now.timer token.now }
    {
        match (self.timer, token) {
            (Some(count), Token::Number(word)) => is_no_timer(count, word.bytes()),
            _ => false,
        }
    }

    fn is_entry_too_many(&self, token: &Token) -> bool
        ensures { result ≡ is_entry_too_many self.now token.now }
    {
        match token {
            Token::Name(_) => !self.covered && self.ended && self.semicolons == MOST_STATEMENTS,
            _ => false,
        }
    }

    fn is_statement_too_many(&self, token: &Token) -> bool
        ensures { result ≡ is_statement_too_many self.now token.now }
    {
        let starts = matches!(token, Token::Name(_) | Token::Key(Key::Report));
        let most = match self.statements {
            Some(count) => count == MOST_STATEMENTS,
            None => false,
        };
        starts && self.begins && most
    }

    /// The fault that a token has by its length, its number or its count.
    pub fn fault(&self, token: &Token) -> Option<SyntaxKind>
        ensures { result ≡ listed_by self.now token.now }
    {
        if is_long(token) {
            Some(SyntaxKind::Long)
        } else if self.is_bad_timer(token) {
            Some(SyntaxKind::Number)
        } else if self.is_entry_too_many(token) || self.is_statement_too_many(token) {
            Some(SyntaxKind::Many)
        } else if is_counted(token) && self.counted == MOST_COUNTED {
            Some(SyntaxKind::Large)
        } else {
            None
        }
    }

    // How many tokens stand behind the last `timer` with this one.
    fn timer_after(&self, token: &Token) -> Option<u32>
        requires { AreBelow self.now (2 ^ 32) }
        ensures { result ≡ timer_after self.now.timer token.now }
    {
        if let Token::Key(Key::Timer) = token {
            return Some(0);
        }
        match self.timer {
            Some(count) => Some(count + 1),
            None => None,
        }
    }

    // How many statements ended with this token.
    fn statements_after(&self, token: &Token) -> Option<u32>
        requires { AreBelow self.now (2 ^ 32) }
        ensures { result ≡ statements_after self.now.statements token.now }
    {
        match self.statements {
            Some(count) => Some(if is_semicolon(token) {
                count + 1
            } else {
                count
            }),
            None => { if is_section(token) { Some(0) } else { None } }
        }
    }

    // How many tokens count with this one in the statement that is not ended.
    fn counted_after(&self, token: &Token) -> u32
        requires { AreBelow self.now (2 ^ 32) }
        ensures { result ≡ counted_after self.now token.now }
    {
        if is_before_statement(token) {
            0
        } else if is_counted(token) {
            self.counted + 1
        } else {
            self.counted
        }
    }

    /// What is counted with one more token.
    pub fn after(&self, token: &Token) -> Counts
        requires { AreBelow self.now (2 ^ 32) }
        ensures { result ≡ counts_after self.now token.now }
    {
        let areamap = matches!(token, Token::Key(Key::Areamap));
        let semicolon = is_semicolon(token);
        Counts {
            covered: self.covered || areamap,
            semicolons: if semicolon {
                self.semicolons + 1
            } else {
                self.semicolons
            },
            ended: semicolon,
            statements: self.statements_after(token),
            begins: is_before_statement(token),
            counted: self.counted_after(token),
            timer: self.timer_after(token),
        }
    }
}
