//! Drain maps among the inputs.

ghost use Rattle.std.specs.Prelude.{◌≡◌, ◌+◌, ◌*◌, ◌/◌, ◌%◌, ◌<◌, IfOk};
ghost use Rattle.outside_io.specs.inside.Parts.{seen_by};
ghost use Rattle.text_base.specs.Limits.{most_cells};
ghost use Rattle.grid_text.specs.Form.{IsSize};
ghost use Rattle.cell_values.specs.declared.kind.Kind.TheVariants.{Ldd};
ghost use Rattle.drain_meaning.specs.Sound.{IsDrain};
ghost use Rattle.drain_meaning.specs.inside.FirstUnsound.{first_unsound};
ghost use Rattle.map_meaning.specs.Maps.{IsMapOf};
ghost use Rattle.run_session.specs.Course.{or_unsound, sound_or_end};
ghost use Rattle.run_session.specs.inside.Parts.{GivesEnd, IsSource, drain_over};

use crate::ends::{InputKind, Stop};
use crate::frame::Frame;
use crate::grids::input_end;
use cell_values::{Kind, Word};
use drain_check::{CheckEnd, check_drain};
use map_meaning::{InputUse, Map, SharedDrain};
use std::alloc::{AllocError, Global};

/// The map of an input, and the drain map that it is, if it is one.
#[derive(Drop)]
pub struct Source {
    pub cells: Map,
    pub drain: Option<SharedDrain>,
}

/// The same once more; nothing is copied.
pub fn source_twin(source: &Source) -> Result<Source, AllocError>
    ensures { IfOk result (λ twin. twin ≡ source.now) }
{
    let cells = source.cells.share()?;
    match &source.drain {
        Some(drain) => Ok(Source {
            cells,
            drain: Some(drain.share()?),
        }),
        None => Ok(Source { cells, drain: None }),
    }
}

// What is wrong with a drain map that is not sound, by its first place whose path fails.
fn unsound_at(cols: u32, place: u32) -> InputKind
    requires some { 0 < cols }
    requires few { place < most_cells }
    ensures { result ≡ InputKind.Unsound (place / cols + 1) (place % cols + 1) }
{
    InputKind::Unsound {
        row: place / cols + 1,
        col: place % cols + 1,
    }
}

// The drain map with these codes.
fn checked(alloc: Global, frame: &Frame, name: &Word, codes: &Map) -> Result<SharedDrain, Stop>
    requires size { IsSize frame.now.rows frame.now.cols }
    requires codes { IsMapOf (frame.now.rows * frame.now.cols) Ldd codes.now }
    ensures settles { GivesEnd (sound_or_end frame.now.cols name.now codes.now (first_unsound (drain_over frame.now codes.now))) (seen_by (λ drain. drain.codes) result) }
    ensures drain { IfOk result (λ drain. (drain ≡ drain_over frame.now codes.now) × IsDrain drain) }
{
    let cells = Vec::from_slice(alloc, codes.cells())?;
    match check_drain(alloc, frame.rows, frame.cols, cells) {
        Ok(drain) => Ok(SharedDrain::new(alloc, drain)?),
        Err(CheckEnd::Unsound { place }) => {
            Err(input_end(alloc, name, unsound_at(frame.cols, place)))
        }
        Err(CheckEnd::Memory) => Err(Stop::Memory),
    }
}

/// The map of an input; a drain map that is not sound ends the run.
#[tactic(auto, unfolding(crate::specs::Course::or_unsound))]
pub fn sound_source(
    alloc: Global,
    frame: &Frame,
    input: &InputUse,
    cells: Map,
) -> Result<Source, Stop>
    requires size { IsSize frame.now.rows frame.now.cols }
    requires cells { IsMapOf (frame.now.rows * frame.now.cols) input.now.kind cells }
    ensures settles { GivesEnd (or_unsound frame.now input.now cells) (seen_by (λ source. source.cells) result) }
    ensures source { IfOk result (IsSource frame.now input.now) }
    ensures same { IfOk result (λ source. source.cells ≡ cells) }
{
    if let Kind::Ldd = input.kind {
        let drain = Some(checked(alloc, frame, &input.file, &cells)?);
        return Ok(Source { cells, drain });
    }
    Ok(Source { cells, drain: None })
}
