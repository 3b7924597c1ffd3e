//! Grids that are put.

ghost use Rattle.std.specs.Prelude.{◌≡◌, ◌*◌, length, map, All, IfErr, IfOk};
ghost use Rattle.outside_io.specs.Runs.{in_turn};
ghost use Rattle.grid_text.specs.Form.{IsSize};
ghost use Rattle.grid_text.specs.Written.{written_grid};
ghost use Rattle.run_session.specs.Steps.{report_run};
ghost use Rattle.run_session.specs.inside.Parts.{CutsOff, Makes};
ghost use Rattle.run_session.specs.inside.Standings.{AscendFrom, kept_of, kept_report};

use crate::ends::Stop;
use crate::files::store;
use crate::frame::Frame;
use crate::kept::{drain_cells, kept_cells};
use cell_values::Cell;
use grid_text::write_grid;
use map_meaning::{Operand, OutputKind, OutputUse, SharedDrain, StepMap, stack_file};
use outside_io::Folder;
use std::alloc::{AllocError, Global};

// The cells that an output writes.
fn written_cells<'a>(maps: &'a [StepMap], drains: &'a [SharedDrain], operand: Operand) -> &'a [Cell]
    requires { AscendFrom 0 maps.now }
    ensures { result.now ≡ kept_of maps.now drains.now operand }
{
    match operand {
        Operand::Initial(number) | Operand::Now(number) => kept_cells(maps, number),
        Operand::Drain(number) => drain_cells(drains, number),
        _ => &[],
    }
}

// The text that an output writes.
fn report_text(
    alloc: Global,
    frame: &Frame,
    maps: &[StepMap],
    drains: &[SharedDrain],
    output: &OutputUse,
) -> Result<Vec<u8>, AllocError>
    requires size { IsSize frame.now.rows frame.now.cols }
    requires ascend { AscendFrom 0 maps.now }
    requires count { length (kept_of maps.now drains.now output.now.value) ≡ frame.now.rows * frame.now.cols }
    ensures { IfOk result (λ text. text.items ≡ written_grid output.now.cell_kind frame.now.rows frame.now.cols frame.now.head (kept_of maps.now drains.now output.now.value)) }
{
    let cells = written_cells(maps, drains, output.value);
    write_grid(
        alloc,
        output.cell_kind,
        frame.rows,
        frame.cols,
        &frame.head,
        cells,
    )
}

// Puts what an output writes at a step.
fn put_report<F: Folder>(
    alloc: Global,
    folder: &mut F,
    frame: &Frame,
    step: u32,
    maps: &[StepMap],
    drains: &[SharedDrain],
    output: &OutputUse,
) -> Result<(), Stop>
    requires size { IsSize frame.now.rows frame.now.cols }
    requires ascend { AscendFrom 0 maps.now }
    requires count { length (kept_of maps.now drains.now output.now.value) ≡ frame.now.rows * frame.now.cols }
    ensures meets { Makes (report_run frame.now step tt (kept_report maps.now drains.now output.now)) (F.state folder.old) (F.state folder.new) result }
    ensures apart { IfErr result CutsOff }
{
    let text = report_text(alloc, frame, maps, drains, output)?;
    if let OutputKind::StackGrid = output.kind {
        let file = stack_file(alloc, output.file.bytes(), step)?;
        return store(alloc, folder, file.bytes(), &text);
    }
    store(alloc, folder, output.file.bytes(), &text)
}

/// Puts what the outputs write at a step, in their order.
pub fn put_reports<F: Folder>(
    alloc: Global,
    folder: &mut F,
    frame: &Frame,
    step: u32,
    maps: &[StepMap],
    drains: &[SharedDrain],
    outputs: &[OutputUse],
) -> Result<(), Stop>
    requires size { IsSize frame.now.rows frame.now.cols }
    requires ascend { AscendFrom 0 maps.now }
    requires counts { All (λ output. length (kept_of maps.now drains.now output.value) ≡ frame.now.rows * frame.now.cols) outputs.now }
    ensures meets { Makes (in_turn (report_run frame.now step) tt (map (kept_report maps.now drains.now) outputs.now)) (F.state folder.old) (F.state folder.new) result }
    ensures apart { IfErr result CutsOff }
{
    for output in outputs {
        put_report(alloc, folder, frame, step, maps, drains, output)?;
    }
    Ok(())
}
