use cell_values::{Kind, Word};
use sqlite_items::Items;

/// A script: the names that it binds, the area that it covers, its last step, and the statements of its two sections,
/// all in the order of the text.
#[derive(Debug, Drop)]
pub struct Script {
    pub bindings: Items<Binding>,
    /// The file word behind `areamap`: a name that is bound, or a file.
    pub area: Word,
    /// The last step of `timer`, from 1 to 100,000; 0 exactly where there is no `timer`.
    pub steps: u32,
    /// The statements of the section `initial`.
    pub initial: Items<Statement>,
    /// The statements of the section `dynamic`.
    pub dynamic: Items<Statement>,
    /// Whether time series are sampled by the mean over the cells of an id: the first line of the text asks for it.
    pub mean: bool,
}

/// A name and what it stands for.
#[derive(Debug, Drop)]
pub struct Binding {
    pub name: Word,
    pub target: Target,
    /// The kind behind `:`, where one is given.
    pub kind: Option<Kind>,
}

/// What a name is bound to.
#[derive(Debug, Drop)]
pub enum Target {
    /// The file of this name.
    File(Word),
    /// This decimal.
    Number(Word),
}

/// A name for the value of an expression.
#[derive(Debug, Drop)]
pub struct Statement {
    /// Whether the value is written.
    pub report: bool,
    pub name: Word,
    pub expr: Expr,
}

/// An expression.
#[derive(Debug, Drop)]
pub enum Expr {
    Name(Word),
    Number(Word),
    /// An operation on the values of its operands. An operator is an operation whose word is its first spelling, and
    /// `if` is one with two or three operands. Brackets leave no node.
    Call { word: Word, args: Items<Expr> },
}
