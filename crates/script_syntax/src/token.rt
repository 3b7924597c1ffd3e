ghost use Rattle.std.specs.Prelude.{◌≡◌};
ghost use Rattle.script_syntax.specs.Grammar.{operator_word};
ghost use Rattle.script_syntax.specs.inside.Levels.{left_level, level_of, right_level};

use cell_values::Word;

/// How two values are compared.
#[derive(Clone, Copy)]
pub enum Comparison {
    Equal,
    Unequal,
    Less,
    AtMost,
    Greater,
    AtLeast,
}

/// The operators of sums.
#[derive(Clone, Copy)]
pub enum Sign {
    Plus,
    Minus,
}

/// The operators of products.
#[derive(Clone, Copy)]
pub enum Factor {
    Times,
    Over,
    WholeOver,
    Modulo,
}

/// An operator with two operands. Its spellings are one operator.
#[derive(Clone, Copy)]
pub enum Operator {
    Or,
    Xor,
    And,
    Compare(Comparison),
    Sum(Sign),
    Product(Factor),
}

/// A word of the language that is no operator.
#[derive(Clone, Copy)]
pub enum Key {
    Binding,
    Areamap,
    Timer,
    Initial,
    Dynamic,
    Report,
    If,
    Then,
    Else,
}

/// A sign between the parts of a script.
#[derive(Clone, Copy)]
pub enum Mark {
    Semicolon,
    Equal,
    Colon,
    Comma,
    Open,
    Close,
}

/// A token of a script text.
#[derive(Drop)]
pub enum Token {
    /// A letter, then letters, digits and `_`, no word of the language.
    Name(Word),
    /// A number; behind the `=` of an entry a decimal, which may have a sign.
    Number(Word),
    /// A file word, in a file place.
    File(Word),
    /// A run in a file place that may not stand there.
    Stray,
    /// `not`, `!` or `~`.
    Not,
    /// An operator; `-` is the sign of a number too.
    Operator(Operator),
    Key(Key),
    Mark(Mark),
}

impl Operator {
    /// The first of its spellings.
    pub fn word(self) -> &'static [u8]
        ensures { result.now ≡ operator_word self }
    {
        match self {
            Operator::Or => b"or",
            Operator::Xor => b"xor",
            Operator::And => b"and",
            Operator::Compare(Comparison::Equal) => b"==",
            Operator::Compare(Comparison::Unequal) => b"!=",
            Operator::Compare(Comparison::Less) => b"<",
            Operator::Compare(Comparison::AtMost) => b"<=",
            Operator::Compare(Comparison::Greater) => b">",
            Operator::Compare(Comparison::AtLeast) => b">=",
            Operator::Sum(Sign::Plus) => b"+",
            Operator::Sum(Sign::Minus) => b"-",
            Operator::Product(Factor::Times) => b"*",
            Operator::Product(Factor::Over) => b"/",
            Operator::Product(Factor::WholeOver) => b"idiv",
            Operator::Product(Factor::Modulo) => b"mod",
        }
    }

    /// How tightly it binds.
    pub fn level(self) -> u8
        ensures { result ≡ level_of self }
    {
        match self {
            Operator::Or => 1,
            Operator::Xor => 2,
            Operator::And => 3,
            Operator::Compare(_) => 5,
            Operator::Sum(_) => 6,
            Operator::Product(_) => 7,
        }
    }

    /// How tightly its left operand is bound at least: chains group from the left, and a comparison is no chain.
    pub fn left_level(self) -> u8
        ensures { result ≡ left_level self }
    {
        match self {
            Operator::Compare(_) => 6,
            _ => self.level(),
        }
    }

    /// How tightly its right operand is bound at least.
    pub fn right_level(self) -> u8
        ensures { result ≡ right_level self }
    {
        self.level() + 1
    }
}
