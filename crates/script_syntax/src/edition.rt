//! The edition of a script, by the first line of its text.

ghost use Rattle.std.specs.Prelude.{◌≡◌};
ghost use Rattle.script_syntax.specs.Editions.{asks_mean, is_line_end};

// The line that asks for means.
const MEAN_LINE: &[u8] = b"#! timeoutput mean";

// Whether a line ends before these bytes.
fn is_line_end(bytes: &[u8]) -> bool
    ensures { result ≡ is_line_end bytes.now }
{
    match bytes {
        [] | [b'\n', ..] | [b'\r', b'\n', ..] => true,
        _ => false,
    }
}

/// Whether the first line of a text asks that time series are sampled by the mean.
#[tactic(auto, unfolding(crate::specs::Editions::asks_mean))]
pub fn asks_mean(text: &[u8]) -> bool
    ensures { result ≡ asks_mean text.now }
{
    match text.strip_prefix(MEAN_LINE) {
        Some(bytes) => is_line_end(bytes),
        None => false,
    }
}
