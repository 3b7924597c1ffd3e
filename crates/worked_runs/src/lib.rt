//! Whole runs of the top calls over folders and sinks in memory: scripts with their files, lines and statuses, each call
//! that fails in turn, and runners of the tests. The crate has tests alone.
#![tactic(auto)]

#[cfg(test)]
mod drains;
#[cfg(test)]
mod ends;
#[cfg(test)]
mod examples;
#[cfg(test)]
mod faults;
#[cfg(test)]
mod files;
#[cfg(test)]
mod models;
#[cfg(test)]
mod noting;
#[cfg(test)]
mod regions;
#[cfg(test)]
mod runners;
#[cfg(test)]
mod runs;
#[cfg(test)]
mod scant;
#[cfg(test)]
mod scripts;
#[cfg(test)]
mod steps;
#[cfg(test)]
mod tiles;
#[cfg(test)]
mod weak;
