//! Scripts in the language of PCRaster: the reader of their text, and the tree that it gives.
//!
//! A script binds names to files and numbers, names the area that a model covers, and says in statements how rasters
//! come from others, once (`initial`) and step by step (`dynamic`). `read_script` gives the one tree of a text, or its
//! first fault with line and column. The trees' lists are the `Items` of `sqlite_items`, which contracts see as lists.
#![tactic(auto)]

mod counts;
mod edition;
mod fault;
mod formula;
mod frames;
mod law;
mod lexer;
mod place;
mod reader;
mod reading;
mod scanner;
mod token;
mod tree;

pub use fault::{ReadScript, SyntaxFault, SyntaxKind};
pub use law::{one_list_of_tokens, one_outcome, one_tree};
pub use reader::read_script;
pub use sqlite_items::Items;
pub use tree::{Binding, Expr, Script, Statement, Target};
