//! Tests of the values, the texts, tiles and windows, and the world outside, as tables whose expected values come from the
//! written rules, from worked examples and from the texts of other programs. The crate has tests alone.
#![tactic(auto)]

#[cfg(test)]
mod arithmetic;
#[cfg(test)]
mod convert;
#[cfg(test)]
mod disks;
#[cfg(test)]
mod grids;
#[cfg(test)]
mod outside;
#[cfg(test)]
mod print;
#[cfg(test)]
mod rounding;
#[cfg(test)]
mod scripts;
#[cfg(test)]
mod series;
#[cfg(test)]
mod tables;
#[cfg(test)]
mod tiles;
#[cfg(test)]
mod tokens;
#[cfg(test)]
mod values;
#[cfg(test)]
mod windows;
