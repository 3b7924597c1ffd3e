//! The key words of a head.

ghost use Rattle.std.specs.Prelude.{◌≡◌};
ghost use Rattle.grid_text.specs.Key.{is_center, is_nan, is_word, key_of};

/// What a key word of a head names.
#[derive(Clone, Copy, Debug, PartialEq, Eq)]
pub enum Key {
    /// The number of columns.
    Cols,
    /// The number of rows.
    Rows,
    /// The place from west to east, of a corner or of a center.
    X,
    /// The place from south to north, of a corner or of a center.
    Y,
    /// The size of a cell.
    Size,
    /// The value that stands for a missing cell.
    Nodata,
}

// Whether the text is the word, in any case of its letters.
fn is_word(word: &[u8], text: &[u8]) -> bool
    ensures { result ≡ is_word word.now text.now }
{
    text.eq_ignore_ascii_case(word)
}

/// Whether the text is `nan`, in any case of its letters.
pub fn is_nan(text: &[u8]) -> bool
    ensures { result ≡ is_nan text.now }
{
    is_word(b"nan", text)
}

/// Whether the key word names the center of a cell, and not the corner of the grid.
pub fn is_center(text: &[u8]) -> bool
    ensures { result ≡ is_center text.now }
{
    is_word(b"xllcenter", text) || is_word(b"yllcenter", text)
}

/// The key that the text names, in any case of its letters.
#[tactic(auto, unfolding(crate::specs::Key::key_of))]
pub fn key_of(text: &[u8]) -> Option<Key>
    ensures { result ≡ key_of text.now }
{
    if is_word(b"ncols", text) {
        return Some(Key::Cols);
    }
    if is_word(b"nrows", text) {
        return Some(Key::Rows);
    }
    if is_word(b"xllcorner", text) {
        return Some(Key::X);
    }
    if is_word(b"xllcenter", text) {
        return Some(Key::X);
    }
    if is_word(b"yllcorner", text) {
        return Some(Key::Y);
    }
    if is_word(b"yllcenter", text) {
        return Some(Key::Y);
    }
    if is_word(b"cellsize", text) {
        return Some(Key::Size);
    }
    if is_word(b"NODATA_value", text) {
        return Some(Key::Nodata);
    }
    None
}
