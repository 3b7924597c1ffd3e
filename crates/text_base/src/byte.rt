//! The classes of bytes.

ghost use Rattle.std.specs.Prelude.{◌≡◌};
ghost use Rattle.text_base.specs.Bytes.{is_blank, is_file_byte, is_letter, is_word_byte};

/// Whether the byte is a space, a tab, a carriage return or a line feed.
#[inline]
pub fn is_blank(byte: u8) -> bool
    ensures { result ≡ is_blank byte }
{
    // Most blanks are spaces, and most other bytes are above them.
    byte == b' ' || (byte < b' ' && matches!(byte, b'\t' | b'\r' | b'\n'))
}

/// Whether the byte is a letter from `A` to `Z` or from `a` to `z`.
#[inline]
pub fn is_letter(byte: u8) -> bool
    ensures { result ≡ is_letter byte }
{
    byte.is_ascii_alphabetic()
}

/// Whether the byte is a letter, a digit or `_`.
#[inline]
pub fn is_word_byte(byte: u8) -> bool
    ensures { result ≡ is_word_byte byte }
{
    is_letter(byte) || byte.is_ascii_digit() || byte == b'_'
}

/// Whether the byte is a letter, a digit, `_`, `.`, `-` or `+`.
#[inline]
pub fn is_file_byte(byte: u8) -> bool
    ensures { result ≡ is_file_byte byte }
{
    is_word_byte(byte) || matches!(byte, b'.' | b'-' | b'+')
}
