use map_meaning::{Known, Program, Span};
use std::sync::Arc;

/// A span that is to be evaluated: its program, its place in it, and what is known of it.
#[derive(Drop)]
pub struct SpanCall {
    pub program: Arc<Program>,
    pub span: Span,
    pub known: Arc<Known>,
}
