ghost use Rattle.std.specs.Prelude.{◌≡◌, ◌+◌, ◌<◌, ◌≤◌, [], IfOk, length};
ghost use Rattle.std.specs.Option.{option_copied};
ghost use Rattle.script_types.specs.Names.{inputs_before};
ghost use Rattle.script_types.specs.Reports.{files_read};
ghost use Rattle.script_types.specs.Statements.{counts};
ghost use Rattle.script_types.specs.inside.Answers.{Adds, AddsAll, AreNextBelow, BeginsPass, GivesLines, GivesReports, IsCount, IsFew, IsNextBelow, IsUnsettled, SettlesScript, StandsBelow, answer_with, area_passes, reports_pass, told_end};
ghost use Rattle.script_types.specs.inside.Scopes.{binding_in};
ghost use Rattle.script_types.specs.inside.Taken.{HasTaken};

use crate::bindings::{numbers_of, places_of};
use crate::end::{KindEnd, LowerEnd};
use crate::fault::{MeaningFault, MeaningKind, Place};
use crate::line::{is_bound_to_number, line_at};
use crate::names::Names;
use crate::reports::{Taken, check_reports, nothing_taken, take, take_inputs};
use crate::scope::{Scope, bound_in};
use crate::tables::{area_role, note_uses, roles_of, samples_of, targets_of};
use crate::typed::{Line, Section, UsedAs};
use script_syntax::{Binding, Script, Statement};
use sqlite_items::Items;
use std::alloc::{AllocError, Global};

/// The settled statements of a script, and what its names are below them.
#[derive(Drop)]
pub struct Settled<'a> {
    pub scope: Scope<'a>,
    pub lines: Items<Line>,
}

// How many inputs stand before those of the section `binding`.
fn inputs_before(bound: Option<&Binding>) -> u32
    ensures value { result ≡ inputs_before (option_copied bound.entry) }
    ensures few { result ≤ 1 }
{
    match bound {
        Some(_) => 0,
        None => 1,
    }
}

/// A script of which nothing is settled yet.
pub fn unsettled<'a>(alloc: Global, script: &'a Script) -> Settled<'a>
    ensures { IsUnsettled script.now result.scope result.lines }
{
    let scope = Scope {
        section: Section::Initial,
        steps: script.steps,
        mean: script.mean,
        bindings: &script.bindings,
        places: Names::new(alloc),
        targets: Names::new(alloc),
        samples: Names::new(alloc),
        roles: Names::new(alloc),
        inputs: Names::new(alloc),
        above: Names::new(alloc),
        stacks_written: 0,
        seen: Names::new(alloc),
        stacks_read: 0,
    };
    Settled {
        scope,
        lines: Items::new(alloc),
    }
}

// Notes what names are above the first statement of a script, or gives the first fault of its bindings.
fn begin(alloc: Global, script: &Script, settled: &mut Settled<'_>) -> Result<(), LowerEnd>
    requires few { length script.now.bindings ≤ 1000 }
    requires unsettled { IsUnsettled script.now settled.old.scope settled.old.lines }
    ensures begins { BeginsPass (answer_with result settled.new.scope) script.now }
    ensures none { settled.new.lines ≡ [] }
{
    let bindings = script.bindings.as_slice();
    let places = match places_of(alloc, bindings) {
        Ok(places) => places,
        Err(end) => return Err(end),
    };
    let first = inputs_before(bound_in(&script.bindings, &places, script.area.bytes()));
    settled.scope.places = places;
    let targets = targets_of(alloc, script)?;
    let roles = roles_of(alloc, script)?;
    let inputs = numbers_of(alloc, bindings, &targets, &roles, first)?;
    settled.scope.targets = targets;
    settled.scope.roles = roles;
    settled.scope.inputs = inputs;
    let samples = samples_of(alloc, script)?;
    settled.scope.samples = samples;
    let seen = area_role(alloc, script)?;
    settled.scope.seen = seen;
    Ok(())
}

// Tests the area map.
fn check_area(scope: &Scope<'_>, script: &Script) -> Result<(), LowerEnd>
    requires { StandsBelow script.now scope.now [] }
    ensures { GivesReports result (area_passes script.now) }
{
    let area = script.area.bytes();
    let bound = scope.binding(area);
    if is_bound_to_number(bound) {
        return Err(LowerEnd::Meaning(MeaningFault {
            at: Place::Area,
            kind: MeaningKind::KindMismatch,
        }));
    }
    if bound.is_some() && scope.targets.get(area).is_some() {
        return Err(LowerEnd::Meaning(MeaningFault {
            at: Place::Area,
            kind: MeaningKind::NameClash,
        }));
    }
    Ok(())
}

// The end of a statement, with its place.
fn told_end(number: u32, end: KindEnd) -> LowerEnd
    requires { number < 1000 }
    ensures { result ≡ told_end number end }
{
    match end {
        KindEnd::Meaning(kind) => LowerEnd::Meaning(MeaningFault {
            at: Place::Statement(number + 1),
            kind,
        }),
        KindEnd::Memory => LowerEnd::Memory,
    }
}

// Adds a statement of a section to the lines above it, or gives its first fault.
fn add_line(
    alloc: Global,
    script: &Script,
    scope: &mut Scope<'_>,
    lines: &mut Items<Line>,
    above: usize,
    statement: &Statement,
) -> Result<usize, LowerEnd>
    requires below { StandsBelow script.now scope.old lines.old }
    requires count { IsCount scope.old.section above lines.old }
    requires room { length lines.old < 1000 }
    requires next { IsNextBelow script.now lines.old statement.now }
    ensures { Adds result script.now scope.old.section lines.old statement.now scope.new lines.new }
{
    let number = lines.len() as u32;
    scope.stacks_read = note_uses(
        alloc,
        &mut scope.seen,
        &statement.expr,
        UsedAs::Grid,
        scope.stacks_read,
    )?;
    match line_at(alloc, scope, above, statement) {
        Ok(found) => {
            let kind = found.line.kind;
            scope
                .above
                .set(alloc, found.line.statement.target.bytes(), kind)?;
            scope.stacks_written = found.stacks;
            lines.push(found.line)?;
            Ok(found.count)
        }
        Err(end) => Err(told_end(number, end)),
    }
}

// Adds the statements of a section to the lines above them, or gives the first fault of one.
fn add_section(
    alloc: Global,
    script: &Script,
    scope: &mut Scope<'_>,
    lines: &mut Items<Line>,
    section: Section,
    statements: &[Statement],
) -> Result<(), LowerEnd>
    requires below { StandsBelow script.now scope.old lines.old }
    requires few { IsFew lines.old }
    requires none { counts section lines.old ≡ 0 }
    requires room { length lines.old + length statements.now ≤ 1000 }
    requires next { AreNextBelow script.now lines.old statements.now }
    ensures { AddsAll result script.now section lines.old statements.now scope.new lines.new }
{
    scope.section = section;
    let mut count = 0;
    for statement in statements {
        match add_line(alloc, script, scope, lines, count, statement) {
            Ok(more) => count = more,
            Err(end) => return Err(end),
        }
    }
    Ok(())
}

// Adds the settled statements of both sections, or gives the first fault of one.
fn add_lines(alloc: Global, script: &Script, settled: &mut Settled<'_>) -> Result<(), LowerEnd>
    requires below { StandsBelow script.now settled.old.scope [] }
    requires none { settled.old.lines ≡ [] }
    requires few { length script.now.initial + length script.now.dynamic ≤ 1000 }
    ensures { GivesLines (answer_with result settled.new) script.now }
{
    let initial = script.initial.as_slice();
    let dynamic = script.dynamic.as_slice();
    match add_section(
        alloc,
        script,
        &mut settled.scope,
        &mut settled.lines,
        Section::Initial,
        initial,
    ) {
        Ok(()) => {}
        Err(end) => return Err(end),
    }
    match add_section(
        alloc,
        script,
        &mut settled.scope,
        &mut settled.lines,
        Section::Dynamic,
        dynamic,
    ) {
        Ok(()) => Ok(()),
        Err(end) => Err(end),
    }
}

// What a script reads.
fn files_of(alloc: Global, script: &Script, settled: &Settled<'_>) -> Result<Taken, AllocError>
    requires { StandsBelow script.now settled.now.scope settled.now.lines }
    ensures { IfOk result (λ taken. HasTaken taken (files_read script.now)) }
{
    let mut taken = nothing_taken(alloc);
    if settled.scope.binding(script.area.bytes()).is_none() {
        take(alloc, &mut taken, false, script.area.bytes())?;
    }
    take_inputs(
        alloc,
        &mut taken,
        script.bindings.as_slice(),
        &settled.scope.targets,
        &settled.scope.roles,
    )?;
    Ok(taken)
}

// Tests what the reports write.
fn check_files(alloc: Global, script: &Script, settled: &Settled<'_>) -> Result<(), LowerEnd>
    requires below { StandsBelow script.now settled.now.scope settled.now.lines }
    requires few { length settled.now.lines ≤ 1000 }
    ensures { GivesReports result (reports_pass script.now.steps (binding_in settled.now.scope) (files_read script.now) 0 settled.now.lines) }
{
    let mut taken = files_of(alloc, script, settled)?;
    check_reports(alloc, &settled.scope, &mut taken, settled.lines.as_slice())
}

/// Settles a script in place, or gives its first fault: so that what is settled is one value, which is dropped at one place.
pub fn settle(alloc: Global, script: &Script, settled: &mut Settled<'_>) -> Result<(), LowerEnd>
    requires bindings { length script.now.bindings ≤ 1000 }
    requires statements { length script.now.initial + length script.now.dynamic ≤ 1000 }
    requires unsettled { IsUnsettled script.now settled.old.scope settled.old.lines }
    ensures { SettlesScript (answer_with result settled.new) script.now }
{
    match begin(alloc, script, settled) {
        Ok(()) => {}
        Err(end) => return Err(end),
    }
    match check_area(&settled.scope, script) {
        Ok(()) => {}
        Err(end) => return Err(end),
    }
    match add_lines(alloc, script, settled) {
        Ok(()) => {}
        Err(end) => return Err(end),
    }
    match check_files(alloc, script, settled) {
        Ok(()) => Ok(()),
        Err(end) => Err(end),
    }
}
