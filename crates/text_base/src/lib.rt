//! The base of all texts: bytes by name, words, tokens and lines with their places, small whole
//! numbers, chains of steps, and the limits that several crates share.
//!
//! A token is a longest run of bytes that are no blanks; a line ends with a line feed or at the end
//! of its text. Readers take both from the front of what is left of a text, and copy nothing.
#![tactic(auto)]

mod byte;
mod limits;
mod line;
mod number;
mod token;
mod word;

pub use byte::{is_blank, is_file_byte, is_letter, is_word_byte};
pub use limits::{
    LONGEST_NUMBER, LONGEST_WORD, MOST_CELLS, MOST_SCRIPT_BYTES, MOST_TEXT_BYTES,
    limits_are_those_named,
};
pub use line::{Line, lines_are_unique, next_line};
pub use number::whole_number;
pub use token::{Token, ends_token, next_token, skip_blanks, tokens_are_unique};
pub use word::is_file_word;
