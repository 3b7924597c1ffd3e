ghost use Rattle.std.specs.Prelude.{◌≡◌};
ghost use Rattle.lue_run.specs.Kinds.{grid_word, meaning_word, series_word, syntax_word, table_word};

use grid_text::GridKind;
use lookup_table::TableKind;
use script_syntax::SyntaxKind;
use script_types::MeaningKind;
use time_series::SeriesKind;

/// The word for the kind of a grid's fault.
pub fn grid_word(kind: GridKind) -> &'static [u8]
    ensures { result.now ≡ grid_word kind }
{
    match kind {
        GridKind::Head => b"head",
        GridKind::BadNumber => b"bad-number",
        GridKind::Range => b"range",
        GridKind::Count => b"count",
    }
}

/// The word for the kind of a lookup table's fault.
pub fn table_word(kind: TableKind) -> &'static [u8]
    ensures { result.now ≡ table_word kind }
{
    match kind {
        TableKind::Columns => b"columns",
        TableKind::BadNumber => b"bad-number",
        TableKind::BadInterval => b"bad-interval",
        TableKind::Range => b"range",
    }
}

/// The word for the kind of a time series' fault.
pub fn series_word(kind: SeriesKind) -> &'static [u8]
    ensures { result.now ≡ series_word kind }
{
    match kind {
        SeriesKind::Title => b"title",
        SeriesKind::Columns => b"columns",
        SeriesKind::BadNumber => b"bad-number",
        SeriesKind::Range => b"range",
        SeriesKind::Order => b"order",
    }
}

/// The word for the kind of a fault of syntax.
pub fn syntax_word(kind: SyntaxKind) -> &'static [u8]
    ensures { result.now ≡ syntax_word kind }
{
    match kind {
        SyntaxKind::Byte => b"byte",
        SyntaxKind::Token => b"token",
        SyntaxKind::End => b"end",
        SyntaxKind::Long => b"long",
        SyntaxKind::Many => b"many",
        SyntaxKind::Large => b"large",
        SyntaxKind::Number => b"number",
    }
}

/// The word for the kind of a fault of meaning.
pub fn meaning_word(kind: MeaningKind) -> &'static [u8]
    ensures { result.now ≡ meaning_word kind }
{
    match kind {
        MeaningKind::UnknownName => b"unknown-name",
        MeaningKind::KindMismatch => b"kind-mismatch",
        MeaningKind::NotAssigned => b"not-assigned",
        MeaningKind::BadStackName => b"bad-stack-name",
        MeaningKind::NameClash => b"name-clash",
        MeaningKind::BadWindow => b"bad-window",
        MeaningKind::WrongSection => b"wrong-section",
        MeaningKind::DrainPlace => b"drain-place",
        MeaningKind::TooMany => b"too-many",
    }
}
