//! The limits that several crates share.

ghost use Rattle.std.specs.Prelude.{◌≡◌};
ghost use Rattle.text_base.specs.Limits.{longest_number, longest_word, most_cells, most_script_bytes, most_text_bytes};

/// The most cells of a map: 2,048 rows of 2,048.
pub const MOST_CELLS: u64 = 4_194_304;

/// The most bytes of a text that is read.
pub const MOST_TEXT_BYTES: u64 = 268_435_456;

/// The most bytes of a script.
pub const MOST_SCRIPT_BYTES: u64 = 1_048_576;

/// The most bytes of a name and of a file word.
pub const LONGEST_WORD: usize = 64;

/// The most bytes of a decimal.
pub const LONGEST_NUMBER: usize = 128;

/// The limits in code are those that definitions name.
pub fn limits_are_those_named()
    ensures cells { MOST_CELLS ≡ most_cells }
    ensures text { MOST_TEXT_BYTES ≡ most_text_bytes }
    ensures script { MOST_SCRIPT_BYTES ≡ most_script_bytes }
    ensures word { LONGEST_WORD ≡ longest_word }
    ensures number { LONGEST_NUMBER ≡ longest_number }
{}
