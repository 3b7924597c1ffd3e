//! Tests of drain maps and of operations along drain directions, as tables whose expected values were worked out by hand.
//! The crate has tests alone.
#![tactic(auto)]

#[cfg(test)]
mod checks;
#[cfg(test)]
mod flows;
#[cfg(test)]
mod maps;
#[cfg(test)]
mod masks;
#[cfg(test)]
mod near;
#[cfg(test)]
mod rivers;
