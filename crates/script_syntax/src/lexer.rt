ghost use Rattle.std.specs.Prelude.{◌≡◌, ◌<◌, ◌≤◌, length, MatchResult, IfOk};
ghost use Rattle.std.specs.List.{prefix_len};
ghost use Rattle.std.specs.Char.{is_ascii_digit};
ghost use Rattle.text_base.specs.Bytes.{is_file_byte, is_word_byte};
ghost use Rattle.script_syntax.specs.Spelling.{key_spelled, one_byte_symbol, operator_spelled, run_token, two_byte_symbol, word_token};
ghost use Rattle.script_syntax.specs.inside.Outcomes.{GivesOutcome};
ghost use Rattle.script_syntax.specs.inside.Scanning.{comment_len, digits_len, file_at, mantissa_len, number_len, plain_at, power_len, sign_len, symbol_at, token_at};

use crate::formula::Refused;
use crate::place::Mode;
use crate::token::{Comparison, Factor, Key, Mark, Operator, Sign, Token};
use cell_values::{Word, is_decimal};
use std::alloc::{AllocError, Global};
use text_base::{is_file_byte, is_letter, is_word_byte};

/// A token at the front of a text, and how many bytes it has.
#[derive(Drop)]
pub struct Found {
    pub token: Token,
    pub len: usize,
}

// How many bytes at the front are those of words.
fn word_len(text: &[u8]) -> usize
    ensures value { result ≡ prefix_len is_word_byte text.now }
    ensures within { result ≤ length text.now }
{
    text.iter().take_while(|b| is_word_byte(**b)).count()
}

// How many bytes at the front are those of file words.
fn file_len(text: &[u8]) -> usize
    ensures value { result ≡ prefix_len is_file_byte text.now }
    ensures within { result ≤ length text.now }
{
    text.iter().take_while(|b| is_file_byte(**b)).count()
}

// How many digits stand at the front.
fn digits_len(text: &[u8]) -> usize
    ensures value { result ≡ digits_len text.now }
    ensures within { result ≤ length text.now }
{
    text.iter().take_while(|b| b.is_ascii_digit()).count()
}

/// How many bytes of a comment stand behind its first.
pub fn comment_len(text: &[u8]) -> usize
    ensures value { result ≡ comment_len text.now }
    ensures within { result ≤ length text.now }
{
    text.iter().take_while(|b| **b != b'\n').count()
}

// How long the longest number without a power is at the front, or 0.
#[tactic(auto, unfolding(crate::specs::inside::Scanning::mantissa_len))]
fn mantissa_len(text: &[u8]) -> usize
    ensures value { result ≡ mantissa_len text.now }
    ensures within { result ≤ length text.now }
{
    let whole = digits_len(text);
    let (_, rest) = text.split_at(whole);
    match rest.split_first() {
        Some((b'.', rest)) => {
            let fraction = digits_len(rest);
            if whole + fraction == 0 {
                0
            } else {
                whole + 1 + fraction
            }
        }
        _ => whole,
    }
}

// How long a sign at the front is.
fn sign_len(text: &[u8]) -> usize
    ensures value { result ≡ sign_len text.now }
    ensures within { result ≤ length text.now }
{
    match text.first() {
        Some(b'+' | b'-') => 1,
        _ => 0,
    }
}

// How long the longest power is at the front, or 0.
#[tactic(auto, unfolding(crate::specs::inside::Scanning::power_len))]
fn power_len(text: &[u8]) -> usize
    ensures value { result ≡ power_len text.now }
    ensures within { result ≤ length text.now }
{
    let Some((first, rest)) = text.split_first() else {
        return 0;
    };
    if *first != b'e' && *first != b'E' {
        return 0;
    }
    let sign = sign_len(rest);
    let (_, rest) = rest.split_at(sign);
    let digits = digits_len(rest);
    if digits == 0 {
        0
    } else {
        1 + sign + digits.min(6)
    }
}

// How long the longest number is at the front, or 0.
#[tactic(auto, unfolding(crate::specs::inside::Scanning::number_len))]
fn number_len(text: &[u8]) -> usize
    ensures value { result ≡ number_len text.now }
    ensures within { result ≤ length text.now }
{
    let mantissa = mantissa_len(text);
    if mantissa == 0 {
        return 0;
    }
    let (_, rest) = text.split_at(mantissa);
    mantissa + power_len(rest)
}

// The operator that a word of the language is.
fn operator_spelled(word: &[u8]) -> Option<Operator>
    ensures { result ≡ operator_spelled word.now }
{
    if word == b"and".as_slice() {
        Some(Operator::And)
    } else if word == b"or".as_slice() {
        Some(Operator::Or)
    } else if word == b"xor".as_slice() {
        Some(Operator::Xor)
    } else if word == b"eq".as_slice() {
        Some(Operator::Compare(Comparison::Equal))
    } else if word == b"ne".as_slice() {
        Some(Operator::Compare(Comparison::Unequal))
    } else if word == b"lt".as_slice() {
        Some(Operator::Compare(Comparison::Less))
    } else if word == b"le".as_slice() {
        Some(Operator::Compare(Comparison::AtMost))
    } else if word == b"gt".as_slice() {
        Some(Operator::Compare(Comparison::Greater))
    } else if word == b"ge".as_slice() {
        Some(Operator::Compare(Comparison::AtLeast))
    } else if word == b"div".as_slice() {
        Some(Operator::Product(Factor::Over))
    } else if word == b"idiv".as_slice() {
        Some(Operator::Product(Factor::WholeOver))
    } else if word == b"mod".as_slice() {
        Some(Operator::Product(Factor::Modulo))
    } else {
        None
    }
}

// The other word of the language that a word is.
fn key_spelled(word: &[u8]) -> Option<Key>
    ensures { result ≡ key_spelled word.now }
{
    if word == b"binding".as_slice() {
        Some(Key::Binding)
    } else if word == b"areamap".as_slice() {
        Some(Key::Areamap)
    } else if word == b"timer".as_slice() {
        Some(Key::Timer)
    } else if word == b"initial".as_slice() {
        Some(Key::Initial)
    } else if word == b"dynamic".as_slice() {
        Some(Key::Dynamic)
    } else if word == b"report".as_slice() {
        Some(Key::Report)
    } else if word == b"if".as_slice() {
        Some(Key::If)
    } else if word == b"then".as_slice() {
        Some(Key::Then)
    } else if word == b"else".as_slice() {
        Some(Key::Else)
    } else {
        None
    }
}

// The token that a word is.
#[tactic(auto, unfolding(crate::specs::Spelling::word_token))]
fn word_token(alloc: Global, word: &[u8]) -> Result<Token, AllocError>
    ensures { IfOk result (λ token. token ≡ word_token word.now) }
{
    if let Some(key) = key_spelled(word) {
        return Ok(Token::Key(key));
    }
    if word == b"not".as_slice() {
        return Ok(Token::Not);
    }
    match operator_spelled(word) {
        Some(operator) => Ok(Token::Operator(operator)),
        None => Ok(Token::Name(Word::new(alloc, word)?)),
    }
}

// The symbol of one byte.
fn one_byte_symbol(byte: u8) -> Option<Token>
    ensures { result ≡ one_byte_symbol byte }
{
    match byte {
        b';' => Some(Token::Mark(Mark::Semicolon)),
        b'=' => Some(Token::Mark(Mark::Equal)),
        b':' => Some(Token::Mark(Mark::Colon)),
        b',' => Some(Token::Mark(Mark::Comma)),
        b'(' => Some(Token::Mark(Mark::Open)),
        b')' => Some(Token::Mark(Mark::Close)),
        b'+' => Some(Token::Operator(Operator::Sum(Sign::Plus))),
        b'-' => Some(Token::Operator(Operator::Sum(Sign::Minus))),
        b'*' => Some(Token::Operator(Operator::Product(Factor::Times))),
        b'/' => Some(Token::Operator(Operator::Product(Factor::Over))),
        b'<' => Some(Token::Operator(Operator::Compare(Comparison::Less))),
        b'>' => Some(Token::Operator(Operator::Compare(Comparison::Greater))),
        b'&' => Some(Token::Operator(Operator::And)),
        b'|' => Some(Token::Operator(Operator::Or)),
        b'!' | b'~' => Some(Token::Not),
        _ => None,
    }
}

// The symbol of two bytes.
fn two_byte_symbol(first: u8, second: u8) -> Option<Token>
    ensures { result ≡ two_byte_symbol first second }
{
    if second != b'=' {
        return None;
    }
    match first {
        b'=' => Some(Token::Operator(Operator::Compare(Comparison::Equal))),
        b'!' => Some(Token::Operator(Operator::Compare(Comparison::Unequal))),
        b'<' => Some(Token::Operator(Operator::Compare(Comparison::AtMost))),
        b'>' => Some(Token::Operator(Operator::Compare(Comparison::AtLeast))),
        _ => None,
    }
}

// The symbol at the front, the longer one first.
#[tactic(auto, unfolding(crate::specs::inside::Scanning::symbol_at))]
fn symbol_at(text: &[u8]) -> Option<Found>
    ensures { result ≡ symbol_at text.now }
{
    let (first, rest) = text.split_first()?;
    if let Some(second) = rest.first() {
        if let Some(token) = two_byte_symbol(*first, *second) {
            return Some(Found { token, len: 2 });
        }
    }
    let token = one_byte_symbol(*first)?;
    Some(Found { token, len: 1 })
}

// The token at the front outside of file places.
#[tactic(auto, unfolding(crate::specs::inside::Scanning::plain_at))]
fn plain_at(alloc: Global, text: &[u8]) -> Result<Found, Refused>
    ensures { GivesOutcome result (plain_at text.now) }
{
    let Some((first, rest)) = text.split_first() else {
        return Err(Refused::Token);
    };
    if is_letter(*first) {
        let len = 1 + word_len(rest);
        let (word, _) = text.split_at(len);
        let token = word_token(alloc, word)?;
        return Ok(Found { token, len });
    }
    let len = number_len(text);
    if len > 0 {
        let (number, _) = text.split_at(len);
        let token = Token::Number(Word::new(alloc, number)?);
        return Ok(Found { token, len });
    }
    match symbol_at(text) {
        Some(found) => Ok(found),
        None => Err(Refused::Token),
    }
}

// The token that a run is in a file place.
fn run_token(alloc: Global, mode: Mode, run: &[u8]) -> Result<Token, AllocError>
    ensures { IfOk result (λ token. token ≡ run_token mode run.now) }
{
    if mode == Mode::BoundFile && is_decimal(run) {
        return Ok(Token::Number(Word::new(alloc, run)?));
    }
    match run.first() {
        Some(first) if is_word_byte(*first) => Ok(Token::File(Word::new(alloc, run)?)),
        _ => Ok(Token::Stray),
    }
}

// The token at the front in a file place.
#[tactic(auto, unfolding(crate::specs::inside::Scanning::file_at))]
fn file_at(alloc: Global, mode: Mode, text: &[u8]) -> Result<Found, Refused>
    ensures { GivesOutcome result (file_at mode text.now) }
{
    let Some((first, rest)) = text.split_first() else {
        return Err(Refused::Token);
    };
    if is_file_byte(*first) {
        let len = 1 + file_len(rest);
        let (run, _) = text.split_at(len);
        let token = run_token(alloc, mode, run)?;
        return Ok(Found { token, len });
    }
    match symbol_at(text) {
        Some(found) => Ok(found),
        None => Err(Refused::Token),
    }
}

/// The longest token at the front of a text, where one begins there.
pub fn token_at(alloc: Global, mode: Mode, text: &[u8]) -> Result<Found, Refused>
    ensures { GivesOutcome result (token_at mode text.now) }
{
    match mode {
        Mode::Bindings | Mode::Sections => plain_at(alloc, text),
        Mode::BoundFile | Mode::AreaFile => file_at(alloc, mode, text),
    }
}
