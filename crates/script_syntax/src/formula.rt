ghost use Rattle.std.specs.Prelude.{◌≡◌, ◌<◌, ◌∷◌, [], IfOk, IfErr, MatchResult, Some};
ghost use Rattle.script_syntax.specs.declared.formula.Refused.TheVariants as refused;
ghost use Rattle.script_syntax.specs.Grammar.{call_one, call_three, call_two, call_joined};
ghost use Rattle.script_syntax.specs.inside.Formulas.{after_called, after_due, after_if, after_value, close, close_bracket, closed, formula_step, next_part, operate, otherwise_part, then_part, whole};
ghost use Rattle.script_syntax.specs.inside.Outcomes.{GivesOutcome};

use crate::frames::{Frame, Frames};
use crate::token::{Key, Mark, Operator, Sign, Token};
use crate::tree::Expr;
use cell_values::Word;
use sqlite_items::Items;
use std::alloc::{AllocError, AllocFailed, Global};

/// Why a token was not taken: no script goes on with it, or there was no memory.
#[derive(Clone, Copy)]
pub enum Refused {
    Token,
    Memory,
}

impl From<AllocError> for Refused {
    ghost from_gives = { λ _ e. e ≡ refused.Memory };

    fn from(_e: AllocError) -> Refused {
        Refused::Memory
    }
}

impl<T: Drop> From<AllocFailed<T>> for Refused {
    ghost from_gives = { λ _ e. e ≡ refused.Memory };

    fn from(_e: AllocFailed<T>) -> Refused {
        Refused::Memory
    }
}

/// What is known of the operand that is read.
#[derive(Drop)]
pub enum Operand {
    /// Nothing.
    Due,
    /// A name, which a bracket may follow.
    Name(Word),
    /// A name and its opening bracket.
    Called(Word),
    /// `if`, which a bracket must follow.
    If,
    /// The whole of it.
    Value(Expr),
}

/// An expression that is read token by token.
#[derive(Drop)]
pub struct Formula {
    pub frames: Frames,
    pub operand: Operand,
}

// The formula in which this frame was opened.
fn open(mut frames: Frames, frame: Frame) -> Result<Formula, Refused>
    ensures { GivesOutcome result (Some (record { frames = frame ∷ frames; operand = Operand.Due })) }
{
    frames.push(frame)?;
    Ok(Formula {
        frames,
        operand: Operand::Due,
    })
}

// A call with one operand.
fn call_one(alloc: Global, word: &[u8], a: Expr) -> Result<Expr, AllocError>
    ensures { IfOk result (λ tree. tree ≡ call_one word.now a) }
{
    let mut args = Items::new(alloc);
    args.push(a)?;
    Ok(Expr::Call {
        word: Word::new(alloc, word)?,
        args,
    })
}

// A call with two operands.
fn call_two(alloc: Global, word: &[u8], a: Expr, b: Expr) -> Result<Expr, AllocError>
    ensures { IfOk result (λ tree. tree ≡ call_two word.now a b) }
{
    let mut args = Items::new(alloc);
    args.push(a)?;
    args.push(b)?;
    Ok(Expr::Call {
        word: Word::new(alloc, word)?,
        args,
    })
}

// A call with three operands.
fn call_three(alloc: Global, word: &[u8], a: Expr, b: Expr, c: Expr) -> Result<Expr, AllocError>
    ensures { IfOk result (λ tree. tree ≡ call_three word.now a b c) }
{
    let mut args = Items::new(alloc);
    args.push(a)?;
    args.push(b)?;
    args.push(c)?;
    Ok(Expr::Call {
        word: Word::new(alloc, word)?,
        args,
    })
}

// The value with a frame closed over it.
fn closed(alloc: Global, frame: Frame, value: Expr) -> Result<Expr, AllocError>
    ensures { IfOk result (λ tree. tree ≡ closed frame value) }
{
    match frame {
        Frame::Left { left, operator } => call_two(alloc, operator.word(), left, value),
        Frame::Negated => call_one(alloc, b"not", value),
        Frame::Negative => call_one(alloc, b"-", value),
        Frame::Brackets
        | Frame::Call { .. }
        | Frame::Condition
        | Frame::Consequence { .. }
        | Frame::Alternative { .. } => Ok(value),
    }
}

// Closes all frames over the value that bind as tightly as the level, or tighter.
fn close(alloc: Global, level: u8, mut value: Expr, frames: &mut Frames) -> Result<Expr, AllocError>
    requires { 0 < level }
    ensures { IfOk result (λ tree. close level value frames.old ≡ (tree, frames.new)) }
{
    'closing: while frames.level() >= level {
        let Some(frame) = frames.pop() else {
            return Ok(value);
        };
        value = closed(alloc, frame, value)?;
    }
    Ok(value)
}

// The value, and an operator behind it.
fn operate(frames: Frames, value: Expr, operator: Operator) -> Result<Formula, Refused>
    ensures { GivesOutcome result (operate (value, frames) operator) }
{
    if operator.level() < frames.hole() {
        return Err(Refused::Token);
    }
    let left = value;
    open(frames, Frame::Left { left, operator })
}

// The value, and a closing bracket behind it.
fn close_bracket(alloc: Global, mut frames: Frames, value: Expr) -> Result<Formula, Refused>
    ensures { GivesOutcome result (close_bracket (value, frames)) }
{
    let tree = match frames.pop() {
        Some(Frame::Brackets) => value,
        Some(Frame::Call { word, mut args }) => {
            args.push(value)?;
            Expr::Call { word, args }
        }
        Some(Frame::Consequence { condition }) => call_two(alloc, b"if", condition, value)?,
        Some(
            Frame::Alternative {
                condition,
                consequence,
            },
        ) => call_three(alloc, b"if", condition, consequence, value)?,
        _ => return Err(Refused::Token),
    };
    Ok(Formula {
        frames,
        operand: Operand::Value(tree),
    })
}

// The value, and a comma behind it.
fn next_part(mut frames: Frames, value: Expr) -> Result<Formula, Refused>
    ensures { GivesOutcome result (next_part (value, frames)) }
{
    match frames.pop() {
        Some(Frame::Call { word, mut args }) => {
            args.push(value)?;
            open(frames, Frame::Call { word, args })
        }
        Some(Frame::Condition) => {
            let condition = value;
            open(frames, Frame::Consequence { condition })
        }
        Some(Frame::Consequence { condition }) => {
            let consequence = value;
            open(
                frames,
                Frame::Alternative {
                    condition,
                    consequence,
                },
            )
        }
        _ => Err(Refused::Token),
    }
}

// The value, and `then` behind it.
fn then_part(mut frames: Frames, value: Expr) -> Result<Formula, Refused>
    ensures { GivesOutcome result (then_part (value, frames)) }
{
    match frames.pop() {
        Some(Frame::Condition) => {
            let condition = value;
            open(frames, Frame::Consequence { condition })
        }
        _ => Err(Refused::Token),
    }
}

// The value, and `else` behind it.
fn otherwise_part(mut frames: Frames, value: Expr) -> Result<Formula, Refused>
    ensures { GivesOutcome result (otherwise_part (value, frames)) }
{
    match frames.pop() {
        Some(Frame::Consequence { condition }) => {
            let consequence = value;
            open(
                frames,
                Frame::Alternative {
                    condition,
                    consequence,
                },
            )
        }
        _ => Err(Refused::Token),
    }
}

// The value, and this token behind it.
fn after_value(
    alloc: Global,
    mut frames: Frames,
    value: Expr,
    token: &Token,
) -> Result<Formula, Refused>
    ensures { GivesOutcome result (after_value value frames token.now) }
{
    match token {
        Token::Operator(operator) => {
            let value = close(alloc, operator.left_level(), value, &mut frames)?;
            operate(frames, value, *operator)
        }
        Token::Mark(Mark::Close) => {
            let value = close(alloc, 1, value, &mut frames)?;
            close_bracket(alloc, frames, value)
        }
        Token::Mark(Mark::Comma) => {
            let value = close(alloc, 1, value, &mut frames)?;
            next_part(frames, value)
        }
        Token::Key(Key::Then) => {
            let value = close(alloc, 1, value, &mut frames)?;
            then_part(frames, value)
        }
        Token::Key(Key::Else) => {
            let value = close(alloc, 1, value, &mut frames)?;
            otherwise_part(frames, value)
        }
        _ => Err(Refused::Token),
    }
}

// An operand is due, and this token stands there.
fn after_due(frames: Frames, token: Token) -> Result<Formula, Refused>
    ensures { GivesOutcome result (after_due frames token) }
{
    let operand = match token {
        Token::Name(word) => Operand::Name(word),
        Token::Number(word) => Operand::Value(Expr::Number(word)),
        Token::Key(Key::If) => Operand::If,
        Token::Not => {
            if frames.hole() > 4 {
                return Err(Refused::Token);
            }
            return open(frames, Frame::Negated);
        }
        Token::Operator(Operator::Sum(Sign::Minus)) => return open(frames, Frame::Negative),
        Token::Mark(Mark::Open) => return open(frames, Frame::Brackets),
        _ => return Err(Refused::Token),
    };
    Ok(Formula { frames, operand })
}

// A call's opening bracket, and this token behind it.
fn after_called(
    alloc: Global,
    mut frames: Frames,
    word: Word,
    token: Token,
) -> Result<Formula, Refused>
    ensures { GivesOutcome result (after_called frames word token) }
{
    let args = Items::new(alloc);
    if let Token::Mark(Mark::Close) = &token {
        return Ok(Formula {
            frames,
            operand: Operand::Value(Expr::Call { word, args }),
        });
    }
    frames.push(Frame::Call { word, args })?;
    after_due(frames, token)
}

// `if`, and this token behind it.
fn after_if(frames: Frames, token: &Token) -> Result<Formula, Refused>
    ensures { GivesOutcome result (after_if frames token.now) }
{
    match token {
        Token::Mark(Mark::Open) => open(frames, Frame::Condition),
        _ => Err(Refused::Token),
    }
}

impl Formula {
    /// An expression of which nothing was read.
    pub fn new(alloc: Global) -> Formula
        ensures { result ≡ record { frames = []; operand = Operand.Due } }
    {
        Formula {
            frames: Frames::new(alloc),
            operand: Operand::Due,
        }
    }

    /// The expression with one more token.
    pub fn step(self, alloc: Global, token: Token) -> Result<Formula, Refused>
        ensures { GivesOutcome result (formula_step self token) }
    {
        let Formula { frames, operand } = self;
        match operand {
            Operand::Due => after_due(frames, token),
            Operand::Name(word) => {
                if let Token::Mark(Mark::Open) = &token {
                    return Ok(Formula {
                        frames,
                        operand: Operand::Called(word),
                    });
                }
                after_value(alloc, frames, Expr::Name(word), &token)
            }
            Operand::Called(word) => after_called(alloc, frames, word, token),
            Operand::If => after_if(frames, &token),
            Operand::Value(value) => after_value(alloc, frames, value, &token),
        }
    }

    /// The tree of the whole expression.
    pub fn whole(self, alloc: Global) -> Result<Expr, Refused>
        ensures { GivesOutcome result (whole self) }
    {
        let Formula {
            mut frames,
            operand,
        } = self;
        let value = match operand {
            Operand::Name(word) => Expr::Name(word),
            Operand::Value(value) => value,
            Operand::Due | Operand::Called(_) | Operand::If => return Err(Refused::Token),
        };
        let tree = close(alloc, 1, value, &mut frames)?;
        match frames.pop() {
            None => Ok(tree),
            Some(_) => Err(Refused::Token),
        }
    }
}
