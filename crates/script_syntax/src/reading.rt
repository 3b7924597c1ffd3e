ghost use Rattle.std.specs.Prelude.{◌≡◌, IfOk, Ok, Some, None, if◌then◌else◌};
ghost use Rattle.script_syntax.specs.Numbers.{steps_of};
ghost use Rattle.script_syntax.specs.inside.Outcomes.{GivesOutcome};
ghost use Rattle.script_syntax.specs.inside.Readings.{add_entry, add_statement, after_areamap, after_bindings, after_bound, after_bound_colon, after_bound_equal, after_bound_kind, after_covered, after_formula, after_named, after_reported, after_section, after_start, after_timed, finish, is_mark, kind_of, new_reading, reading_step, timer_end, timer_to};

use crate::formula::{Formula, Refused};
use crate::token::{Key, Mark, Token};
use crate::tree::{Binding, Expr, Script, Statement, Target};
use cell_values::{Kind, Word};
use sqlite_items::Items;
use std::alloc::{AllocError, Global};
use text_base::whole_number;

/// The section that is read, and whether a script may end there and may have more.
#[derive(Clone, Copy)]
pub enum Section {
    /// `initial` of a script without `timer`.
    Static,
    /// `initial` of a script with `timer`.
    Initial,
    Dynamic,
}

/// What is read, and so what may stand next.
#[derive(Drop)]
pub enum Phase {
    /// Nothing: `binding` or `areamap`.
    Start,
    /// Whole entries: a name or `areamap`.
    Bindings,
    /// An entry's name: `=`.
    BoundName(Word),
    /// An entry up to its `=`: a file word or a decimal.
    BoundEqual(Word),
    /// An entry up to its target: `:` or `;`.
    Bound(Word, Target),
    /// An entry up to its `:`: a kind.
    BoundColon(Word, Target),
    /// An entry up to its kind: `;`.
    BoundKind(Word, Target, Kind),
    /// `areamap`: a file word.
    Areamap,
    /// The area: `;`.
    Area,
    /// The area whole: `timer` or `initial`.
    Covered,
    /// `timer`: the first step.
    Timer,
    /// The first step: the last one.
    TimerFrom,
    /// The last step: the length of a step.
    TimerTo,
    /// The length of a step: `;`.
    TimerBy,
    /// The timer whole: `initial` or `dynamic`.
    Timed,
    /// Whole statements of a section: a statement, a section, or the end.
    Section(Section),
    /// `report`: a name.
    Reported(Section),
    /// A statement's name: `=`.
    Named(Section, bool, Word),
    /// A part of a statement's expression.
    Formula(Section, bool, Word, Formula),
}

/// A script that is read token by token: its tree so far, and what may stand next.
#[derive(Drop)]
pub struct Reading {
    pub script: Script,
    pub phase: Phase,
}

// The reading with this phase.
fn now(script: Script, phase: Phase) -> Result<Reading, Refused>
    ensures { result ≡ Ok (record { script = script; phase = phase }) }
{
    Ok(Reading { script, phase })
}

// Whether a token is this mark.
fn is_mark(token: &Token, mark: Mark) -> bool
    ensures { result ≡ is_mark mark token.now }
{
    match token {
        Token::Mark(other) => *other == mark,
        _ => false,
    }
}

// The reading with this phase, where the token is this mark.
fn behind_mark(script: Script, phase: Phase, token: &Token, mark: Mark) -> Result<Reading, Refused>
    ensures { GivesOutcome result (if is_mark mark token.now then Some (record { script = script; phase = phase }) else None) }
{
    if is_mark(token, mark) {
        Ok(Reading { script, phase })
    } else {
        Err(Refused::Token)
    }
}

// The last step that a number of `timer` writes.
fn steps_of(word: &[u8]) -> u32
    ensures { result ≡ steps_of word.now }
{
    match whole_number(word, 6) {
        Some(steps) => steps as u32,
        None => 0,
    }
}

// The kind of this word.
fn kind_of(word: &[u8]) -> Option<Kind>
    ensures { result ≡ kind_of word.now }
{
    if word == b"boolean".as_slice() {
        Some(Kind::Boolean)
    } else if word == b"nominal".as_slice() {
        Some(Kind::Nominal)
    } else if word == b"ordinal".as_slice() {
        Some(Kind::Ordinal)
    } else if word == b"scalar".as_slice() {
        Some(Kind::Scalar)
    } else if word == b"directional".as_slice() {
        Some(Kind::Directional)
    } else if word == b"ldd".as_slice() {
        Some(Kind::Ldd)
    } else {
        None
    }
}

// The reading with one more entry.
fn add_entry(
    mut script: Script,
    name: Word,
    target: Target,
    kind: Option<Kind>,
) -> Result<Reading, Refused>
    ensures { GivesOutcome result (Some (add_entry script name target kind)) }
{
    script.bindings.push(Binding { name, target, kind })?;
    now(script, Phase::Bindings)
}

// The reading with one more statement.
fn add_statement(
    mut script: Script,
    section: Section,
    report: bool,
    name: Word,
    expr: Expr,
) -> Result<Reading, Refused>
    ensures { GivesOutcome result (Some (add_statement script section report name expr)) }
{
    let statement = Statement { report, name, expr };
    match section {
        Section::Static | Section::Initial => script.initial.push(statement)?,
        Section::Dynamic => script.dynamic.push(statement)?,
    }
    now(script, Phase::Section(section))
}

fn after_start(script: Script, token: &Token) -> Result<Reading, Refused>
    ensures { GivesOutcome result (after_start script token.now) }
{
    match token {
        Token::Key(Key::Binding) => now(script, Phase::Bindings),
        Token::Key(Key::Areamap) => now(script, Phase::Areamap),
        _ => Err(Refused::Token),
    }
}

fn after_bindings(script: Script, token: Token) -> Result<Reading, Refused>
    ensures { GivesOutcome result (after_bindings script token) }
{
    match token {
        Token::Name(name) => now(script, Phase::BoundName(name)),
        Token::Key(Key::Areamap) => now(script, Phase::Areamap),
        _ => Err(Refused::Token),
    }
}

fn after_bound_equal(script: Script, name: Word, token: Token) -> Result<Reading, Refused>
    ensures { GivesOutcome result (after_bound_equal script name token) }
{
    match token {
        Token::File(file) => now(script, Phase::Bound(name, Target::File(file))),
        Token::Number(number) => now(script, Phase::Bound(name, Target::Number(number))),
        _ => Err(Refused::Token),
    }
}

fn after_bound(
    script: Script,
    name: Word,
    target: Target,
    token: &Token,
) -> Result<Reading, Refused>
    ensures { GivesOutcome result (after_bound script name target token.now) }
{
    match token {
        Token::Mark(Mark::Semicolon) => add_entry(script, name, target, None),
        Token::Mark(Mark::Colon) => now(script, Phase::BoundColon(name, target)),
        _ => Err(Refused::Token),
    }
}

fn after_bound_colon(
    script: Script,
    name: Word,
    target: Target,
    token: &Token,
) -> Result<Reading, Refused>
    ensures { GivesOutcome result (after_bound_colon script name target token.now) }
{
    let Token::Name(word) = token else {
        return Err(Refused::Token);
    };
    match kind_of(word.bytes()) {
        Some(kind) => now(script, Phase::BoundKind(name, target, kind)),
        None => Err(Refused::Token),
    }
}

fn after_bound_kind(
    script: Script,
    name: Word,
    target: Target,
    kind: Kind,
    token: &Token,
) -> Result<Reading, Refused>
    ensures { GivesOutcome result (after_bound_kind script name target kind token.now) }
{
    if is_mark(token, Mark::Semicolon) {
        add_entry(script, name, target, Some(kind))
    } else {
        Err(Refused::Token)
    }
}

fn after_areamap(mut script: Script, token: Token) -> Result<Reading, Refused>
    ensures { GivesOutcome result (after_areamap script token) }
{
    match token {
        Token::File(area) => {
            script.area = area;
            now(script, Phase::Area)
        }
        _ => Err(Refused::Token),
    }
}

fn after_covered(script: Script, token: &Token) -> Result<Reading, Refused>
    ensures { GivesOutcome result (after_covered script token.now) }
{
    match token {
        Token::Key(Key::Timer) => now(script, Phase::Timer),
        Token::Key(Key::Initial) => now(script, Phase::Section(Section::Static)),
        _ => Err(Refused::Token),
    }
}

// A number of `timer`, behind which this phase comes.
fn timer_number(script: Script, phase: Phase, token: &Token) -> Result<Reading, Refused>
    ensures { GivesOutcome result (timer_end script phase token.now) }
{
    match token {
        Token::Number(_) => Ok(Reading { script, phase }),
        _ => Err(Refused::Token),
    }
}

// The second number of `timer`, which is the last step.
fn timer_to(mut script: Script, token: &Token) -> Result<Reading, Refused>
    ensures { GivesOutcome result (timer_to script token.now) }
{
    match token {
        Token::Number(word) => {
            script.steps = steps_of(word.bytes());
            now(script, Phase::TimerTo)
        }
        _ => Err(Refused::Token),
    }
}

fn after_timed(script: Script, token: &Token) -> Result<Reading, Refused>
    ensures { GivesOutcome result (after_timed script token.now) }
{
    match token {
        Token::Key(Key::Initial) => now(script, Phase::Section(Section::Initial)),
        Token::Key(Key::Dynamic) => now(script, Phase::Section(Section::Dynamic)),
        _ => Err(Refused::Token),
    }
}

fn after_section(script: Script, section: Section, token: Token) -> Result<Reading, Refused>
    ensures { GivesOutcome result (after_section script section token) }
{
    match token {
        Token::Name(name) => now(script, Phase::Named(section, false, name)),
        Token::Key(Key::Report) => now(script, Phase::Reported(section)),
        Token::Key(Key::Dynamic) => {
            if section == Section::Initial {
                now(script, Phase::Section(Section::Dynamic))
            } else {
                Err(Refused::Token)
            }
        }
        _ => Err(Refused::Token),
    }
}

fn after_reported(script: Script, section: Section, token: Token) -> Result<Reading, Refused>
    ensures { GivesOutcome result (after_reported script section token) }
{
    match token {
        Token::Name(name) => now(script, Phase::Named(section, true, name)),
        _ => Err(Refused::Token),
    }
}

fn after_named(
    alloc: Global,
    script: Script,
    section: Section,
    report: bool,
    name: Word,
    token: &Token,
) -> Result<Reading, Refused>
    ensures { GivesOutcome result (after_named script section report name token.now) }
{
    if is_mark(token, Mark::Equal) {
        let formula = Formula::new(alloc);
        now(script, Phase::Formula(section, report, name, formula))
    } else {
        Err(Refused::Token)
    }
}

fn after_formula(
    alloc: Global,
    script: Script,
    section: Section,
    report: bool,
    name: Word,
    formula: Formula,
    token: Token,
) -> Result<Reading, Refused>
    ensures { GivesOutcome result (after_formula script section report name formula token) }
{
    if is_mark(&token, Mark::Semicolon) {
        let expr = formula.whole(alloc)?;
        add_statement(script, section, report, name, expr)
    } else {
        let formula = formula.step(alloc, token)?;
        now(script, Phase::Formula(section, report, name, formula))
    }
}

impl Reading {
    /// A script of which nothing was read.
    pub fn new(alloc: Global) -> Result<Reading, AllocError>
        ensures { IfOk result (λ reading. reading ≡ new_reading) }
    {
        let script = Script {
            bindings: Items::new(alloc),
            area: Word::new(alloc, b"")?,
            steps: 0,
            initial: Items::new(alloc),
            dynamic: Items::new(alloc),
            mean: false,
        };
        Ok(Reading {
            script,
            phase: Phase::Start,
        })
    }

    /// The script with one more token.
    pub fn step(self, alloc: Global, token: Token) -> Result<Reading, Refused>
        ensures { GivesOutcome result (reading_step self token) }
    {
        let Reading { script, phase } = self;
        match phase {
            Phase::Start => after_start(script, &token),
            Phase::Bindings => after_bindings(script, token),
            Phase::BoundName(name) => {
                behind_mark(script, Phase::BoundEqual(name), &token, Mark::Equal)
            }
            Phase::BoundEqual(name) => after_bound_equal(script, name, token),
            Phase::Bound(name, target) => after_bound(script, name, target, &token),
            Phase::BoundColon(name, target) => after_bound_colon(script, name, target, &token),
            Phase::BoundKind(name, target, kind) => {
                after_bound_kind(script, name, target, kind, &token)
            }
            Phase::Areamap => after_areamap(script, token),
            Phase::Area => behind_mark(script, Phase::Covered, &token, Mark::Semicolon),
            Phase::Covered => after_covered(script, &token),
            Phase::Timer => timer_number(script, Phase::TimerFrom, &token),
            Phase::TimerFrom => timer_to(script, &token),
            Phase::TimerTo => timer_number(script, Phase::TimerBy, &token),
            Phase::TimerBy => behind_mark(script, Phase::Timed, &token, Mark::Semicolon),
            Phase::Timed => after_timed(script, &token),
            Phase::Section(section) => after_section(script, section, token),
            Phase::Reported(section) => after_reported(script, section, token),
            Phase::Named(section, report, name) => {
                after_named(alloc, script, section, report, name, &token)
            }
            Phase::Formula(section, report, name, formula) => {
                after_formula(alloc, script, section, report, name, formula, token)
            }
        }
    }

    /// The tree of the whole script.
    pub fn finish(self) -> Option<Script>
        ensures { result ≡ finish self }
    {
        match self.phase {
            Phase::Section(Section::Static | Section::Dynamic) => Some(self.script),
            _ => None,
        }
    }
}
