//! The words that name files.

ghost use Rattle.std.specs.Prelude.{◌≡◌};
ghost use Rattle.std.specs.List.{list_all};
ghost use Rattle.text_base.specs.Bytes.{is_file_byte};
ghost use Rattle.text_base.specs.Words.{begins_word, is_file_word};

use crate::byte::{is_file_byte, is_word_byte};
use crate::limits::LONGEST_WORD;

// Whether the text begins with a letter, a digit or `_`.
fn begins_word(text: &[u8]) -> bool
    ensures { result ≡ begins_word text.now }
{
    match text.first() {
        Some(first) => is_word_byte(*first),
        None => false,
    }
}

// Whether each byte is a letter, a digit, `_`, `.`, `-` or `+`.
fn has_only_file_bytes(text: &[u8]) -> bool
    ensures { result ≡ list_all is_file_byte text.now }
{
    text.iter().all(|b| is_file_byte(*b))
}

/// Whether the text is a word that names a file: 1 to 64 letters, digits, `_`, `.`, `-` and `+`, of
/// which the first is a letter, a digit or `_`.
pub fn is_file_word(text: &[u8]) -> bool
    ensures { result ≡ is_file_word text.now }
{
    begins_word(text) && has_only_file_bytes(text) && text.len() <= LONGEST_WORD
}
