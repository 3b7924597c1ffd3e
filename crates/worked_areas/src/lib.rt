//! Tests of operations over areas, as tables whose expected values were worked out by hand. The crate has tests alone.
#![tactic(auto)]

#[cfg(test)]
mod areas;
#[cfg(test)]
mod parts;
