//! Scripts by tiles of several sizes beside the same scripts over whole maps. The crate has tests alone.
#![tactic(auto)]

#[cfg(test)]
mod admitted;
#[cfg(test)]
mod files;
#[cfg(test)]
mod overs;
#[cfg(test)]
mod runs;
#[cfg(test)]
mod same;
