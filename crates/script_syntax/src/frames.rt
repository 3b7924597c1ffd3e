ghost use Rattle.std.specs.Prelude.{◌≡◌, [], ◌∷◌, length, OnOk, MatchOption, nat_le, Some, None};
ghost use Rattle.std.specs.Option.{option_map_or};
ghost use Rattle.script_syntax.specs.inside.Formulas.{frame_hole, frame_level, hole, top_level};

use crate::token::Operator;
use crate::tree::Expr;
use cell_values::Word;
use sqlite_items::Items;
use std::alloc::{AllocError, Global};
use std::marker::Model;

/// What is open around the next operand of an expression.
#[derive(Drop)]
pub enum Frame {
    /// A left operand and its operator.
    Left { left: Expr, operator: Operator },
    /// `not`.
    Negated,
    /// The sign `-`.
    Negative,
    /// An opening bracket.
    Brackets,
    /// A call with the operands before.
    Call { word: Word, args: Items<Expr> },
    /// `if` and its bracket.
    Condition,
    /// The same with its condition.
    Consequence { condition: Expr },
    /// The same with its condition and its first value.
    Alternative { condition: Expr, consequence: Expr },
}

impl Frame {
    // How tightly an operand is bound once this frame is closed over it, or 0 where a token closes it.
    fn level(&self) -> u8
        ensures { result ≡ frame_level self.now }
    {
        match self {
            Frame::Left { operator, .. } => operator.level(),
            Frame::Negated => 4,
            Frame::Negative => 8,
            Frame::Brackets
            | Frame::Call { .. }
            | Frame::Condition
            | Frame::Consequence { .. }
            | Frame::Alternative { .. } => 0,
        }
    }

    // How tightly an operand in this frame is bound at least.
    fn hole(&self) -> u8
        ensures { result ≡ frame_hole self.now }
    {
        match self {
            Frame::Left { operator, .. } => operator.right_level(),
            Frame::Negated => 4,
            Frame::Negative => 8,
            Frame::Brackets
            | Frame::Call { .. }
            | Frame::Condition
            | Frame::Consequence { .. }
            | Frame::Alternative { .. } => 1,
        }
    }
}

/// The frames that are open. Contracts see the innermost first.
#[derive(Drop)]
pub struct Frames {
    open: Vec<Frame>,
}

impl Model for Frames {
    ghost use Rattle.std.specs.Prelude.{List, reverse};
    ghost use Rattle.std.specs.Coded.{codes};
    ghost use Rattle.script_syntax.specs.declared.frames.Frame.{Frame};
    ghost use Rattle.script_syntax.specs.contracts.tree.Expr as expr;

    ghost Value = { List Frame };

    ghost coded = { Prim.hlevel (codes, expr.the_row.coded) };

    ghost view = { λ f. reverse f.open.items };
}

impl Frames {
    pub fn new(alloc: Global) -> Frames
        ensures { result ≡ [] }
    {
        Frames {
            open: Vec::new(alloc),
        }
    }

    pub fn push(&mut self, frame: Frame) -> Result<(), AllocError>
        ensures { OnOk result (self.new ≡ frame ∷ self.old) }
    {
        self.open.push(frame)?;
        Ok(())
    }

    pub fn pop(&mut self) -> Option<Frame>
        ensures { MatchOption result ((self.old ≡ []) × (self.new ≡ [])) (λ top. self.old ≡ top ∷ self.new) }
    {
        self.open.pop()
    }

    /// How tightly an operand in the innermost frame is bound at least.
    pub fn hole(&self) -> u8
        ensures { result ≡ hole self.now }
    {
        match self.open.last() {
            Some(frame) => frame.hole(),
            None => 1,
        }
    }

    /// The level of the innermost frame, or 0 where there is none.
    pub fn level(&self) -> u8
        ensures { result ≡ top_level self.now }
    {
        match self.open.last() {
            Some(frame) => frame.level(),
            None => 0,
        }
    }
}
