//! Tests of what threads share, over a counter that keeps the list of its additions. The crate has tests alone.
#![tactic(auto)]

#[cfg(test)]
mod counter;
#[cfg(test)]
mod turns;
