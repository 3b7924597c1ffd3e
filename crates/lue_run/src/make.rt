ghost use Rattle.std.specs.Prelude.{◌≡◌, ◌<◌, length};
ghost use Rattle.outside_io.specs.Causes.{outcome_by, why_by};
ghost use Rattle.outside_io.specs.Met.{Meets};
ghost use Rattle.outside_io.specs.Puts.{no_error};
ghost use Rattle.outside_io.specs.Runs.{in_turn};
ghost use Rattle.model_maker.specs.Files.{made_file_at, made_files};
ghost use Rattle.model_maker.specs.Made.{file_made};
ghost use Rattle.lue_run.specs.Course.{made_put};
ghost use Rattle.lue_run.specs.inside.Puts.{WasMade, not_put_outcome};

use crate::ended::Ended;
use cell_values::Word;
use model_maker::{DrawnModel, Made};
use outside_io::{Folder, PutEnd};
use std::alloc::Global;

/// Why a file of a model was not put.
#[derive(Drop)]
pub enum NotPut {
    /// The file of this name could not be put.
    Failed(Word),
    /// No memory was left.
    Memory,
}

// Puts one file.
fn put_made<F: Folder>(alloc: Global, folder: &mut F, made: &Made) -> Result<(), NotPut>
    ensures { Meets (why_by no_error) (made_put tt (file_made made.now)) (F.state folder.old) (F.state folder.new) (outcome_by not_put_outcome result) }
{
    let Ok(name) = made.name.twin(alloc) else {
        return Err(NotPut::Memory);
    };
    match folder.put(alloc, made.name.bytes(), &made.bytes) {
        Ok(()) => Ok(()),
        Err(PutEnd::Failed) => Err(NotPut::Failed(name)),
        Err(PutEnd::Memory) => Err(NotPut::Memory),
    }
}

// Puts the file of a model with this place, once it is written.
fn put_file<F: Folder>(
    alloc: Global,
    folder: &mut F,
    model: &DrawnModel,
    place: usize,
) -> Result<(), NotPut>
    requires { place < length (made_files model.now) }
    ensures { Meets (why_by no_error) (made_put tt (made_file_at model.now place)) (F.state folder.old) (F.state folder.new) (outcome_by not_put_outcome result) }
{
    let Ok(made) = model.file(alloc, place) else {
        return Err(NotPut::Memory);
    };
    put_made(alloc, folder, &made)
}

// Puts the files of a model, in their order. One of them at a time is written and kept.
fn put_all<F: Folder>(alloc: Global, folder: &mut F, model: &DrawnModel) -> Result<(), NotPut>
    ensures { Meets (why_by no_error) (in_turn made_put tt (made_files model.now)) (F.state folder.old) (F.state folder.new) (outcome_by not_put_outcome result) }
{
    for place in 0..model.count() {
        put_file(alloc, folder, model, place)?;
    }
    Ok(())
}

/// Makes the model of a number, and puts its files.
pub fn run_make<F: Folder>(alloc: Global, number: u32, folder: &mut F) -> Ended
    ensures { WasMade number (F.state folder.old) (F.state folder.new) result }
{
    let Ok(model) = DrawnModel::draw(alloc, number) else {
        return Ended::Memory;
    };
    match put_all(alloc, folder, &model) {
        Ok(()) => Ended::Made {
            files: model.count() as u64,
        },
        Err(NotPut::Failed(name)) => Ended::FolderWriteFault(name),
        Err(NotPut::Memory) => Ended::Memory,
    }
}
