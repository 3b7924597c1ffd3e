//! What a seat knows, for the proofs alone.

use std::collections::LinkedList;

/// What a seat knows. No value of it is made.
pub struct View<P, E> {
    pub plan: Option<P>,
    /// By whom its entries are.
    pub authors: LinkedList<u64>,
    /// The history that it has seen.
    pub seen: LinkedList<E>,
    /// The seat that it took in last, until a load settles the two: its authors, and what it had seen.
    pub told_authors: LinkedList<u64>,
    pub told: LinkedList<E>,
    /// It has the turn.
    pub holds: bool,
    /// The history as it took the turn.
    pub met: LinkedList<E>,
}
