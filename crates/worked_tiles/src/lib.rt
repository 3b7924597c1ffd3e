//! Tests of border edges, of channels, and of transports over tiles in any order of messages. The crate has tests alone.
#![tactic(auto)]

#[cfg(test)]
mod edges;
#[cfg(test)]
mod maps;
#[cfg(test)]
mod orders;
#[cfg(test)]
mod run;
#[cfg(test)]
mod whole;
