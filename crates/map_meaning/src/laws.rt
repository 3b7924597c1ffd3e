//! What holds of every model, in the subject's words.

ghost use Rattle.map_meaning.specs.Examples.{CellExamples, FileExamples, KindExamples, ProgramExamples, SectionExamples, SpanExamples, StepExamples, TreeExamples};
ghost use Rattle.map_meaning.specs.OverExamples.{OverExamples};
ghost use Rattle.map_meaning.specs.PlaceExamples.{AlongExamples, MaskExamples, RegionExamples};
ghost use Rattle.map_meaning.specs.TableExamples.{TableExamples};
ghost use Rattle.map_meaning.specs.Laws.{AreNearWhole, ChangeTheirTargets, GiveWholeMaps, HaveOneRow, LieInTheirKind, OperationsGoOn, SectionsGoOn, SpreadMissing, StayInRange, TellTheLeastOver};

/// Worked examples come out as they were worked out by hand.
pub fn worked_examples_come_out()
    ensures cells { CellExamples }
    ensures kinds { KindExamples }
    ensures rows { TableExamples }
    ensures overs { OverExamples }
    ensures programs { ProgramExamples }
    ensures sections { SectionExamples }
    ensures files { FileExamples }
    ensures trees { TreeExamples }
    ensures steps { StepExamples }
    ensures spans { SpanExamples }
    ensures regions { RegionExamples }
    ensures drains { AlongExamples }
    ensures masks { MaskExamples }
{}

/// Each operation has one row of the table of operations.
pub fn operations_have_one_row()
    ensures { HaveOneRow }
{}

/// The result of an operation is a cell of its kind where its operands are maps of theirs.
pub fn results_lie_in_their_kind()
    ensures { LieInTheirKind }
{}

/// Sums, differences, products, quotients, totals, conversions to classes, and what gathers or flows out along drain
/// directions can leave the range of their kind; no other operation does where its operands are maps of their kinds.
pub fn few_operations_leave_their_range()
    ensures { StayInRange }
{}

/// A missing operand gives a missing value, each key of a lookup too, except in the choices and tests that look at what is
/// missing, and but for values that operations over windows, areas, whole maps and one step along drain directions pass
/// over: a missing class or direction gives a missing value there too.
pub fn missing_operands_spread()
    ensures { SpreadMissing }
{}

/// The whole numbers that a scalar is rounded down and up to are the nearest on their side.
pub fn whole_numbers_are_near()
    ensures { AreNearWhole }
{}

/// What statements, and operations, give is what the later ones of them give from where the earlier ones have come to.
pub fn sections_go_on()
    ensures statements { SectionsGoOn }
    ensures operations { OperationsGoOn }
{}

/// A statement changes the map of its target alone.
pub fn statements_change_their_target()
    ensures { ChangeTheirTargets }
{}

/// The first Over by statements and operations is the least of those that an evaluation notes which goes on behind
/// them; where there is none, both give the same maps.
pub fn first_over_is_the_least_noted()
    ensures { TellTheLeastOver }
{}

/// Each map that a stage of `initial`, or a step, gives has a cell for each place, of the kind of its operation.
pub fn spans_give_whole_maps()
    ensures { GiveWholeMaps }
{}
