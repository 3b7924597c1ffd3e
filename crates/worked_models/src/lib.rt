//! Tests of models and their operations, as tables whose expected values were worked out by hand from the written rules.
//! The crate has tests alone.
#![tactic(auto)]

#[cfg(test)]
mod cells;
#[cfg(test)]
mod drains;
#[cfg(test)]
mod maps;
#[cfg(test)]
mod meaning;
#[cfg(test)]
mod plain;
#[cfg(test)]
mod programs;
#[cfg(test)]
mod sections;
#[cfg(test)]
mod texts;
#[cfg(test)]
mod told;
#[cfg(test)]
mod windows;
