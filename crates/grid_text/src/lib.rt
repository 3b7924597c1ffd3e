//! Grid texts: the ASCII grids of ESRI, read and written exactly.
//!
//! A text is a row of tokens between blanks: pairs of a key word and its value, which say how many
//! rows and columns the grid has, where it lies and which value stands for a missing cell, and then
//! the cells row by row from the north. A text that is no grid of the asked kind is refused with its
//! first fault and the byte place of it. What is written is read back as what was written.
#![tactic(auto)]

mod cells;
mod fault;
mod grid;
mod head;
mod key;
mod reader;
mod values;
mod writer;

pub use fault::{GridFault, GridKind, ReadGrid};
pub use grid::{Grid, Head};
pub use reader::{first_faults_are_told, grids_are_read, read_grid};
pub use writer::{
    cut_grids_lose_the_last_cell_alone, grids_can_be_written, write_grid, written_grids_read_back,
};
