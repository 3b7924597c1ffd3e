//! Texts cut into tokens and lines, small whole numbers, and words of files.

use std::alloc::{AllocError, Global};
use std::test::Fail;
use text_base::{
    Line, Token, is_blank, is_file_byte, is_file_word, is_letter, is_word_byte, next_line,
    next_token, whole_number,
};

/// A text, and its tokens, each behind its place.
static TOKENS: [(&str, &str); 7] = [
    ("", ""),
    (" \t\r\n", ""),
    ("a", "0a "),
    (" ab  c", "1ab 5c "),
    ("a\tb\rc\nd ", "0a 2b 4c 6d "),
    // a vertical tab, a form feed and a byte beyond ASCII stand in a token
    ("a\u{b}b\u{c} é", "0a\u{b}b\u{c} 5é "),
    ("=,;", "0=,; "),
];

/// A text, and its lines with more than blanks, each behind its number, with `|` at their ends.
static LINES: [(&str, &str); 6] = [
    ("", ""),
    ("\n \r\n", ""),
    ("a", "1a|"),
    ("a\n\n b \r\n", "1a|3 b \r|"),
    ("\n\n\nlast", "4last|"),
    ("a\rb", "1a\rb|"),
];

/// A token, the most digits that it may have, and the number that it writes.
static NUMBERS: [(&str, usize, Option<u64>); 10] = [
    ("0", 7, Some(0)),
    ("0000007", 7, Some(7)),
    ("4194304", 7, Some(4_194_304)),
    ("00000007", 7, None),
    ("", 7, None),
    ("-1", 7, None),
    ("+1", 7, None),
    ("1.0", 7, None),
    ("1a", 7, None),
    ("9999999999999999999", 19, Some(9_999_999_999_999_999_999)),
];

/// A word, and whether it is one of a file.
static FILE_WORDS: [(&str, bool); 13] = [
    ("a.asc", true),
    ("_", true),
    ("0", true),
    ("a-b+c_d.e", true),
    ("", false),
    (".a", false),
    ("-a", false),
    ("+a", false),
    ("a/b", false),
    ("a b", false),
    ("é", false),
    (
        "a234567890123456789012345678901234567890123456789012345678901234",
        true,
    ),
    (
        "a2345678901234567890123456789012345678901234567890123456789012345",
        false,
    ),
];

/// A byte, and whether it is a blank, a letter, a word byte and a file byte.
static BYTES: [(u8, [bool; 4]); 12] = [
    (b' ', [true, false, false, false]),
    (b'\r', [true, false, false, false]),
    (11, [false, false, false, false]),
    (0, [false, false, false, false]),
    (b'A', [false, true, true, true]),
    (b'z', [false, true, true, true]),
    (b'@', [false, false, false, false]),
    (b'[', [false, false, false, false]),
    (b'9', [false, false, true, true]),
    (b'_', [false, false, true, true]),
    (b'+', [false, false, false, true]),
    (b'/', [false, false, false, false]),
];

// Appends a number, a text and what ends it.
fn add(
    alloc: Global,
    shown: &mut Vec<u8>,
    number: u64,
    text: &[u8],
    end: u8,
) -> Result<(), AllocError> {
    let digits = number.to_string(alloc)?;
    shown.extend_from_slice(digits.as_bytes())?;
    shown.extend_from_slice(text)?;
    Ok(shown.push(end)?)
}

// The first token of what is left.
fn token(text_len: usize, left: &[u8]) -> Option<(Token<'_>, &[u8])> {
    if left.len() > text_len {
        return None;
    }
    next_token(text_len, left)
}

// The first line of what is left.
fn line(number: u32, left: &[u8]) -> Option<(Line<'_>, &[u8])> {
    if number > 1_000_000 || left.len() > 1_000_000 {
        return None;
    }
    next_line(number, left)
}

// The tokens of a text, each behind its place.
fn shown_tokens(alloc: Global, text: &[u8]) -> Result<Vec<u8>, AllocError> {
    let mut shown = Vec::new(alloc);
    let mut left = text;
    for _ in 0..text.len() {
        let Some((found, rest)) = token(text.len(), left) else {
            break;
        };
        add(alloc, &mut shown, found.at, found.bytes, b' ')?;
        left = rest;
    }
    Ok(shown)
}

// The lines of a text, each behind its number.
fn shown_lines(alloc: Global, text: &[u8]) -> Result<Vec<u8>, AllocError> {
    let mut shown = Vec::new(alloc);
    let mut left = text;
    let mut number = 1;
    for _ in 0..text.len() {
        let Some((found, rest)) = line(number, left) else {
            break;
        };
        add(alloc, &mut shown, found.number as u64, found.bytes, b'|')?;
        number = found.number.saturating_add(1);
        left = rest;
    }
    Ok(shown)
}

#[test]
fn cuts_texts_into_tokens(rt: HostRuntime) -> Result<(), Fail> {
    for (text, wanted) in TOKENS.iter() {
        let shown = shown_tokens(rt.alloc(), text.as_bytes())?;
        assert_eq!(rt; shown.as_slice(), wanted.as_bytes(), "of '{text}'");
    }
    Ok(())
}

#[test]
fn cuts_texts_into_lines(rt: HostRuntime) -> Result<(), Fail> {
    for (text, wanted) in LINES.iter() {
        let shown = shown_lines(rt.alloc(), text.as_bytes())?;
        assert_eq!(rt; shown.as_slice(), wanted.as_bytes(), "of '{text}'");
    }
    Ok(())
}

// The number that a token of at most so many digits writes.
fn number(token: &str, most: usize) -> Option<u64> {
    if most > 19 {
        return None;
    }
    whole_number(token.as_bytes(), most)
}

#[test]
fn knows_numbers_and_words(rt: HostRuntime) {
    for (token, most, wanted) in NUMBERS.iter() {
        assert_eq!(rt; number(token, *most), *wanted, "of '{token}'");
    }
    for (word, wanted) in FILE_WORDS.iter() {
        assert_eq!(rt; is_file_word(word.as_bytes()), *wanted, "of '{word}'");
    }
}

// What a byte is: a blank, a letter, a word byte and a file byte.
fn known(byte: u8) -> [bool; 4] {
    [
        is_blank(byte),
        is_letter(byte),
        is_word_byte(byte),
        is_file_byte(byte),
    ]
}

#[test]
fn knows_bytes(rt: HostRuntime) {
    for (byte, wanted) in BYTES.iter() {
        assert_eq!(rt; known(*byte), *wanted, "of {byte}");
    }
}
