//! Time series: a row of values for each step, read and written exactly.
//!
//! A series is a text with a row for each line, its step first, behind a head of a title, a number
//! of columns and their names, or without one. A text that is no series of the asked kind is refused
//! with its first fault and the number of its line. Steps ascend, so a row is found by halving.
#![tactic(auto)]

mod fault;
mod head;
mod reader;
mod row;
mod rows;
mod series;
mod word;
mod writer;

pub use fault::{ReadSeries, SeriesFault, SeriesKind};
pub use reader::{first_series_faults_are_told, read_series, series_are_read};
pub use row::SeriesRow;
pub use series::{Series, cell_in_column};
pub use writer::write_series;
