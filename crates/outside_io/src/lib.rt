//! The folder and the sink: the only way a run touches the world, and the one statement of what a run did.
//!
//! A run reads and puts files of a folder, and writes one line to a sink. Both count their failures, and tell what
//! they hold where they know it. A run itself is a value: the reads and puts in order, as a function of the files.
//! `MemFolder` and `MemSink` live in memory and fail on demand, `CalmFolder` and `CalmSink` never fail, and
//! `FileFolder` and `StdSink` are the system's.
#![tactic(auto)]

mod calm_folder;
mod calm_sink;
mod disk;
mod failing_calls;
mod file_folder;
mod folder;
mod gate;
mod mem_disk;
mod mem_folder;
mod mem_reader;
mod mem_sink;
mod puts;
mod sink;
mod std_sink;
mod system_disk;

pub use calm_folder::CalmFolder;
pub use calm_sink::CalmSink;
pub use disk::{Disk, DiskEnd, Look};
pub use file_folder::FileFolder;
pub use folder::{Folder, PutEnd, ReadEnd};
pub use gate::{Gate, OpenGate};
pub use mem_disk::{MemDisk, MemWriter};
pub use mem_folder::MemFolder;
pub use mem_reader::MemReader;
pub use mem_sink::MemSink;
pub use puts::{NewFile, NotAllPut, put_in_turn};
pub use sink::{Sink, SinkFailed};
pub use std_sink::StdSink;
pub use system_disk::SystemDisk;
