//! Spans by workers and by rounds: gates that hold workers back and that count, kits that refuse, and the same files as over whole
//! maps. The crate has tests alone.
#![tactic(auto)]

#[cfg(test)]
mod counting;
#[cfg(test)]
mod files;
#[cfg(test)]
mod meeting;
#[cfg(test)]
mod meetings;
#[cfg(test)]
mod passes;
#[cfg(test)]
mod refusals;
#[cfg(test)]
mod refusing;
#[cfg(test)]
mod runs;
#[cfg(test)]
mod same;
