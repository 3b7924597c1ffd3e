//! The files of a made model.

ghost use Rattle.std.specs.Prelude.{◌≡◌, ◌*◌, ◌<◌, IfOk, length, map};
ghost use Rattle.model_maker.specs.Cells.{side};
ghost use Rattle.model_maker.specs.Files.{made_file_at, grid_file, made_files, made_head};
ghost use Rattle.model_maker.specs.Made.{file_made};

use crate::cells::{SIDE, cells_in_all, draw_cells, zone_cells};
use crate::draws::Draws;
use crate::rain::draw_rain;
use crate::script::script_text;
use cell_values::{Cell, Kind, Word};
use grid_text::{Head, write_grid};
use std::alloc::{AllocError, Global};
use std::marker::Model;
use time_series::{SeriesRow, write_series};

/// A made file.
#[derive(Debug, Drop)]
pub struct Made {
    /// Its name.
    pub name: Word,
    /// What it holds.
    pub bytes: Vec<u8>,
}

/// How many files a model has.
const FILES: usize = 5;

// The place of the maps: their lower left corner at 0, and cells of the side 1.
fn made_head(alloc: Global) -> Result<Head, AllocError>
    ensures { IfOk result (λ head. head ≡ made_head) }
{
    Ok(Head {
        x_center: false,
        y_center: false,
        x: Word::new(alloc, b"0")?,
        y: Word::new(alloc, b"0")?,
        size: Word::new(alloc, b"1")?,
    })
}

// The file of this name.
fn file_named(alloc: Global, name: &[u8], bytes: Vec<u8>) -> Result<Made, AllocError>
    ensures { IfOk result (λ made. file_made made ≡ (name.now, bytes.items)) }
{
    let name = Word::new(alloc, name)?;
    Ok(Made { name, bytes })
}

// The file of a map.
fn map_file(alloc: Global, name: &[u8], kind: Kind, cells: &[Cell]) -> Result<Made, AllocError>
    requires { length cells.now ≡ side * side }
    ensures { IfOk result (λ made. file_made made ≡ (name.now, grid_file kind cells.now)) }
{
    let head = made_head(alloc)?;
    let text = write_grid(alloc, kind, SIDE, SIDE, &head, cells)?;
    file_named(alloc, name, text)
}

/// A model that was drawn from its number, whose files are written one at a time.
#[derive(Drop)]
pub struct DrawnModel {
    number: u32,
    drains: Vec<Cell>,
    soils: Vec<Cell>,
    rain: Vec<SeriesRow>,
}

impl Model for DrawnModel {
    ghost use Rattle.std.specs.Prelude.{ℕ};
    ghost use Rattle.model_maker.specs.inside.Drawn.{IsDrawnModel};

    // the number
    ghost Value = { ℕ };

    ghost view = { λ m. m.number };

    ghost invariant = { λ m. IsDrawnModel m.number m.drains.items m.soils.items m.rain.items };
}

impl DrawnModel {
    /// Draws the model of a number.
    pub fn draw(alloc: Global, number: u32) -> Result<DrawnModel, AllocError>
        ensures { IfOk result (λ model. model ≡ number) }
    {
        let mut draws = Draws {
            state: number as u64,
        };
        let cells = draw_cells(alloc, cells_in_all(), &mut draws)?;
        let rain = draw_rain(alloc, &mut draws)?;
        Ok(DrawnModel {
            number,
            drains: cells.drains,
            soils: cells.soils,
            rain,
        })
    }

    /// How many files the model has.
    #[tactic(auto, unfolding(crate::specs::Files::made_files))]
    pub fn count(&self) -> usize
        ensures { result ≡ length (made_files self.now) }
    {
        FILES
    }

    // The file of the script.
    fn script_file(&self, alloc: Global) -> Result<Made, AllocError>
        ensures { IfOk result (λ made. file_made made ≡ made_file_at self.now 0) }
    {
        let text = Vec::from_slice(alloc, script_text())?;
        file_named(alloc, b"made.mod", text)
    }

    // The file of the drain map.
    fn drain_file(&self, alloc: Global) -> Result<Made, AllocError>
        ensures { IfOk result (λ made. file_made made ≡ made_file_at self.now 1) }
    {
        map_file(alloc, b"made_ldd.asc", Kind::Ldd, &self.drains)
    }

    // The file of the zones.
    fn zone_file(&self, alloc: Global) -> Result<Made, AllocError>
        ensures { IfOk result (λ made. file_made made ≡ made_file_at self.now 2) }
    {
        let zones = zone_cells(alloc, cells_in_all())?;
        map_file(alloc, b"made_zone.asc", Kind::Nominal, &zones)
    }

    // The file of the soils.
    fn soil_file(&self, alloc: Global) -> Result<Made, AllocError>
        ensures { IfOk result (λ made. file_made made ≡ made_file_at self.now 3) }
    {
        map_file(alloc, b"made_soil.asc", Kind::Scalar, &self.soils)
    }

    // The file of the rain.
    fn rain_file(&self, alloc: Global) -> Result<Made, AllocError>
        ensures { IfOk result (λ made. file_made made ≡ made_file_at self.now 4) }
    {
        let text = write_series(alloc, Kind::Scalar, &[1, 2, 3, 4], &self.rain)?;
        file_named(alloc, b"made_rain.tss", text)
    }

    /// The file with this place among those of the model, in the order in which they are to be put.
    #[tactic(auto, unfolding(crate::specs::Files::made_files))]
    pub fn file(&self, alloc: Global, place: usize) -> Result<Made, AllocError>
        requires { place < length (made_files self.now) }
        ensures { IfOk result (λ made. file_made made ≡ made_file_at self.now place) }
    {
        match place {
            0 => self.script_file(alloc),
            1 => self.drain_file(alloc),
            2 => self.zone_file(alloc),
            3 => self.soil_file(alloc),
            _ => self.rain_file(alloc),
        }
    }
}

/// The files of the model of a number, in the order in which they are to be put: a script, a drain map, zones, soils, and
/// rain. They take about two and a half million bytes.
pub fn make_model(alloc: Global, number: u32) -> Result<Vec<Made>, AllocError>
    ensures { IfOk result (λ files. map file_made files.items ≡ made_files number) }
{
    let model = DrawnModel::draw(alloc, number)?;
    let mut files = Vec::with_capacity(alloc, FILES)?;
    for place in 0..model.count() {
        files.push(model.file(alloc, place)?)?;
    }
    Ok(files)
}
