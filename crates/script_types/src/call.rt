ghost use Rattle.std.specs.Prelude.{◌≡◌};
ghost use Rattle.map_meaning.specs.Table.{is_window_length};
ghost use Rattle.script_types.specs.Typing.{begins_free, begins_without_grid, call_read, has_bad_length, is_free, is_good_length, is_in_initial, is_in_wrong_section, is_input_grid, is_misplaced_mask};
ghost use Rattle.script_types.specs.inside.Scopes.{GivesKind};

use crate::end::KindEnd;
use crate::fault::MeaningKind;
use crate::operands::{agreed_kind, length_of, row_value};
use crate::table::{ask_at, asks_drain, is_length, row_for, word_row};
use crate::typed::{Section, Typed};
use map_meaning::{Stands, Tree};
use std::alloc::Global;

// Whether the section is `initial`.
fn is_in_initial(section: Section) -> bool
    ensures { result ≡ is_in_initial section }
{
    matches!(section, Section::Initial)
}

// Whether the operand is the name of an input grid.
fn is_input_grid(operand: &Typed) -> bool
    ensures { result ≡ is_input_grid operand.now }
{
    match operand {
        Typed::Map(value) => matches!(&value.tree, Tree::Input { .. }),
        _ => false,
    }
}

// Whether there is a first operand, and it is no name of an input grid.
fn begins_without_grid(operands: &[Typed]) -> bool
    ensures { result ≡ begins_without_grid operands.now }
{
    match operands {
        [first, ..] => !is_input_grid(first),
        [] => false,
    }
}

// Whether a call of the time, of a series or of a sample stands outside its place.
fn is_in_wrong_section(stands: Stands, section: Section, is_whole: bool, operands: &[Typed]) -> bool
    ensures { result ≡ is_in_wrong_section stands section is_whole operands.now }
{
    match stands {
        Stands::Dynamic => is_in_initial(section),
        Stands::Sample => is_in_initial(section) || !is_whole || begins_without_grid(operands),
        Stands::Anywhere => false,
        Stands::Mask => false,
    }
}

// Whether the operand is a number without a kind.
fn is_free(operand: &Typed) -> bool
    ensures { result ≡ is_free operand.now }
{
    matches!(operand, Typed::Literal(_) | Typed::Constant(_))
}

// Whether there is a first operand, and it is a number without a kind.
fn begins_free(operands: &[Typed]) -> bool
    ensures { result ≡ begins_free operands.now }
{
    match operands {
        [first, ..] => is_free(first),
        [] => false,
    }
}

// Whether a mask of a drain map is no whole right side of `initial`.
fn is_misplaced_mask(stands: Stands, section: Section, is_whole: bool) -> bool
    ensures { result ≡ is_misplaced_mask stands section is_whole }
{
    match stands {
        Stands::Mask => !is_in_initial(section) || !is_whole,
        Stands::Anywhere => false,
        Stands::Dynamic => false,
        Stands::Sample => false,
    }
}

// Whether the number is odd and from 1 to 31.
fn is_window_length(length: u32) -> bool
    ensures { result ≡ is_window_length length }
{
    length % 2 == 1 && length <= 31
}

// Whether the operand is a literal that is the length of a window.
fn is_good_length(operand: &Typed) -> bool
    ensures { result ≡ is_good_length operand.now }
{
    match operand {
        Typed::Literal(text) => is_window_length(length_of(text.bytes())),
        _ => false,
    }
}

// Whether there is a second operand, and it is no length of a window.
fn has_bad_length(operands: &[Typed]) -> bool
    ensures { result ≡ has_bad_length operands.now }
{
    match operands {
        [_, second, ..] => !is_good_length(second),
        _ => false,
    }
}

/// An operation on these operands, or the first fault at its node.
#[tactic(auto, unfolding(crate::specs::Typing::call_read))]
pub fn call(
    alloc: Global,
    section: Section,
    is_whole: bool,
    word: &[u8],
    operands: Vec<Typed>,
) -> Result<Typed, KindEnd>
    ensures { GivesKind result (call_read section is_whole word.now operands.items) }
{
    let Some(named) = word_row(word) else {
        return Err(KindEnd::Meaning(MeaningKind::UnknownName));
    };
    if is_in_wrong_section(named.stands, section, is_whole, operands.as_slice()) {
        return Err(KindEnd::Meaning(MeaningKind::WrongSection));
    }
    if asks_drain(ask_at(named, 0)) && begins_free(operands.as_slice()) {
        return Err(KindEnd::Meaning(MeaningKind::DrainPlace));
    }
    if is_misplaced_mask(named.stands, section, is_whole) {
        return Err(KindEnd::Meaning(MeaningKind::DrainPlace));
    }
    if is_length(ask_at(named, 1)) && has_bad_length(operands.as_slice()) {
        return Err(KindEnd::Meaning(MeaningKind::BadWindow));
    }
    let Some(row) = row_for(word, operands.len()) else {
        return Err(KindEnd::Meaning(MeaningKind::KindMismatch));
    };
    let agreed = agreed_kind(row, operands.as_slice());
    row_value(alloc, row, agreed, operands)
}
