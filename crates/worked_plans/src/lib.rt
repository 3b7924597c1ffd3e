//! Tests of plans: how many tasks, what each reads, who reads it, border edges, and graphs. The programs are those of scripts; the
//! numbers were worked out by hand. The crate has tests alone.
#![tactic(auto)]

#[cfg(test)]
mod blocks;
#[cfg(test)]
mod counts;
#[cfg(test)]
mod edges;
#[cfg(test)]
mod graphs;
#[cfg(test)]
mod maps;
#[cfg(test)]
mod plans;
