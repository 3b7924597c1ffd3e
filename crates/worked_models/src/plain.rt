//! A program, operation by operation.

ghost use Rattle.std.specs.Prelude.{◌≡◌, ◌*◌, ◌<◌, ◌≤◌, ◌++◌, ◌∷◌, [], IfOk, IsTrue, OnOk};
ghost use Rattle.text_base.specs.Limits.{most_cells};
ghost use Rattle.cell_values.specs.declared.kind.Kind.TheVariants.{Scalar};
ghost use Rattle.map_meaning.specs.declared.program.Operand.TheVariants.{Initial as TheInitial};
ghost use Rattle.map_meaning.specs.declared.program.OutputKind.TheVariants.{InitialGrid};
ghost use Rattle.map_meaning.specs.declared.program.Role.TheVariants.{Grid};
ghost use Rattle.map_meaning.specs.Programs.{IsWellFormed};
ghost use Rattle.map_meaning.specs.Spans.{IsSpan, Knows, whole_span};
ghost use Rattle.worked_models.specs.Chain.{chain_inputs, chain_operations, chain_outputs, chain_program, is_input};

use cell_values::Cell::{Mv, Val};
use cell_values::{Cell, Cells, Kind, Word};
use flow_task::BaseKit;
use map_meaning::Operand::{Initial, Input, Literal, Unused};
use map_meaning::{
    BlockRunner, InputUse, Known, Map, Op, Operand, Operation, OutputKind, OutputUse, OverAt,
    Program, Role, Span, StageEnd, StepMap,
};
use plain_eval::PlainRunner;
use sqlite_items::Items;
use std::alloc::{AllocError, Global};
use std::process::Abort;
use std::sync::Arc;
use std::test::Fail;

/// One.
const ONE: i64 = 1_000_000;

/// The greatest scalar.
const MOST: i64 = 9_000_000_000_000_000_000;

/// `report C = min(A, B, 2);`, `D = boolean(C);`, `report E = if(D then A else 7);`, `report F = E * B + C;`,
/// `report G = nominal(F);`, `report H = C;` and `I = -F;`.
const CHAIN: [Operation; 9] = [
    Operation {
        op: Op::Min,
        kind: Kind::Scalar,
        a: Input(0),
        b: Input(1),
        c: Unused,
        d: Unused,
        drain: 0,
        file: 0,
        window: 0,
        statement: 1,
        number: 1,
        kept: false,
    },
    Operation {
        op: Op::Min,
        kind: Kind::Scalar,
        a: Initial(0),
        b: Literal(Kind::Scalar, Val(2 * ONE)),
        c: Unused,
        d: Unused,
        drain: 0,
        file: 0,
        window: 0,
        statement: 1,
        number: 2,
        kept: true,
    },
    Operation {
        op: Op::ToBoolean,
        kind: Kind::Boolean,
        a: Initial(1),
        b: Unused,
        c: Unused,
        d: Unused,
        drain: 0,
        file: 0,
        window: 0,
        statement: 2,
        number: 1,
        kept: false,
    },
    Operation {
        op: Op::IfElse,
        kind: Kind::Scalar,
        a: Initial(2),
        b: Input(0),
        c: Literal(Kind::Scalar, Val(7 * ONE)),
        d: Unused,
        drain: 0,
        file: 0,
        window: 0,
        statement: 3,
        number: 1,
        kept: true,
    },
    Operation {
        op: Op::Mul,
        kind: Kind::Scalar,
        a: Initial(3),
        b: Input(1),
        c: Unused,
        d: Unused,
        drain: 0,
        file: 0,
        window: 0,
        statement: 4,
        number: 1,
        kept: false,
    },
    Operation {
        op: Op::Add,
        kind: Kind::Scalar,
        a: Initial(4),
        b: Initial(1),
        c: Unused,
        d: Unused,
        drain: 0,
        file: 0,
        window: 0,
        statement: 4,
        number: 2,
        kept: true,
    },
    Operation {
        op: Op::ToNominal,
        kind: Kind::Nominal,
        a: Initial(5),
        b: Unused,
        c: Unused,
        d: Unused,
        drain: 0,
        file: 0,
        window: 0,
        statement: 5,
        number: 1,
        kept: true,
    },
    Operation {
        op: Op::CopyOf,
        kind: Kind::Scalar,
        a: Initial(1),
        b: Unused,
        c: Unused,
        d: Unused,
        drain: 0,
        file: 0,
        window: 0,
        statement: 6,
        number: 1,
        kept: true,
    },
    Operation {
        op: Op::Neg,
        kind: Kind::Scalar,
        a: Initial(5),
        b: Unused,
        c: Unused,
        d: Unused,
        drain: 0,
        file: 0,
        window: 0,
        statement: 7,
        number: 1,
        kept: false,
    },
];

/// Two rows of `A`.
const A: [Cell; 6] = [
    Val(ONE),
    Val(5 * ONE),
    Mv,
    Val(-2 * ONE),
    Val(0),
    Val(3 * ONE),
];

/// Two rows of `B`.
const B: [Cell; 6] = [
    Val(4 * ONE),
    Val(3 * ONE),
    Val(ONE),
    Val(ONE),
    Val(6 * ONE),
    Val(2_500_000),
];

/// `A` where the product of the fourth statement is out of range at the last place, and the class of the fifth at the first.
const LARGE_PRODUCT: [Cell; 6] = [
    Val(100_000 * ONE),
    Val(5 * ONE),
    Mv,
    Val(-2 * ONE),
    Val(0),
    Val(MOST),
];

/// `A` where the class alone is out of range.
const LARGE_CLASS: [Cell; 6] = [
    Val(100_000 * ONE),
    Val(5 * ONE),
    Mv,
    Val(-2 * ONE),
    Val(0),
    Val(3 * ONE),
];

/// `B` beside them.
const LARGE_FACTORS: [Cell; 6] = [
    Val(100_000 * ONE),
    Val(3 * ONE),
    Val(ONE),
    Val(ONE),
    Val(6 * ONE),
    Val(1_000 * ONE),
];

/// `A` where the sum of the fourth statement is out of range in the second row.
const LARGE_SUM: [Cell; 6] = [Val(ONE), Val(5 * ONE), Mv, Val(MOST), Val(0), Val(3 * ONE)];

/// The maps that are reported: the number of the operation and its cells.
const KEPT: [(u32, [Cell; 6]); 5] = [
    (
        1,
        [
            Val(ONE),
            Val(2 * ONE),
            Mv,
            Val(-2 * ONE),
            Val(0),
            Val(2 * ONE),
        ],
    ),
    (
        3,
        [
            Val(ONE),
            Val(5 * ONE),
            Mv,
            Val(-2 * ONE),
            Val(7 * ONE),
            Val(3 * ONE),
        ],
    ),
    (
        5,
        [
            Val(5 * ONE),
            Val(17 * ONE),
            Mv,
            Val(-4 * ONE),
            Val(42 * ONE),
            Val(9_500_000),
        ],
    ),
    (6, [Val(5), Val(17), Mv, Val(-4), Val(42), Val(9)]),
    (
        7,
        [
            Val(ONE),
            Val(2 * ONE),
            Mv,
            Val(-2 * ONE),
            Val(0),
            Val(2 * ONE),
        ],
    ),
];

// One input.
fn input(alloc: Global, file: &[u8]) -> Result<InputUse, AllocError>
    ensures { IfOk result (λ input. input ≡ record { file = file.now; role = Grid; kind = Scalar }) }
{
    Ok(InputUse {
        file: Word::new(alloc, file)?,
        role: Role::Grid,
        kind: Kind::Scalar,
    })
}

// The inputs `A` and `B`.
fn inputs(alloc: Global) -> Result<Items<InputUse>, AllocError>
    ensures { IfOk result (λ inputs. inputs ≡ chain_inputs) }
{
    let mut inputs = Items::new(alloc);
    inputs.push(input(alloc, b"A")?)?;
    inputs.push(input(alloc, b"B")?)?;
    Ok(inputs)
}

// Reports the map of an operation.
fn report(
    outputs: &mut Items<OutputUse>,
    alloc: Global,
    file: &[u8],
    operation: u32,
    cell_kind: Kind,
    statement: u32,
) -> Result<(), AllocError>
    ensures { OnOk result (outputs.new ≡ outputs.old ++ record { file = file.now; kind = InitialGrid; value = TheInitial operation; cell_kind = cell_kind; statement = statement } ∷ []) }
{
    outputs.push(OutputUse {
        file: Word::new(alloc, file)?,
        kind: OutputKind::InitialGrid,
        value: Initial(operation),
        cell_kind,
        statement,
    })
}

// The outputs `C` and `E` to `H`.
fn outputs(alloc: Global) -> Result<Items<OutputUse>, AllocError>
    ensures { IfOk result (λ outputs. outputs ≡ chain_outputs) }
{
    let mut outputs = Items::new(alloc);
    report(&mut outputs, alloc, b"C", 1, Kind::Scalar, 1)?;
    report(&mut outputs, alloc, b"E", 3, Kind::Scalar, 3)?;
    report(&mut outputs, alloc, b"F", 5, Kind::Scalar, 4)?;
    report(&mut outputs, alloc, b"G", 6, Kind::Nominal, 5)?;
    report(&mut outputs, alloc, b"H", 7, Kind::Scalar, 6)?;
    Ok(outputs)
}

// The operations.
fn operations(alloc: Global) -> Result<Items<Operation>, AllocError>
    ensures { IfOk result (λ operations. operations ≡ chain_operations) }
{
    Items::from_slice(alloc, &CHAIN)
}

// The program.
fn chain(alloc: Global) -> Result<Program, AllocError>
    ensures { IfOk result (λ program. program ≡ chain_program) }
{
    Ok(Program {
        inputs: inputs(alloc)?,
        initial: operations(alloc)?,
        dynamic: Items::new(alloc),
        drains: Items::new(alloc),
        outputs: outputs(alloc)?,
        area: 0,
        steps: 0,
    })
}

// A map of these cells.
fn map_of(alloc: Global, cells: &[Cell]) -> Result<Map, AllocError>
    ensures { IfOk result (λ map. map ≡ cells.now) }
{
    Map::new(alloc, Cells::from_vec(Vec::from_slice(alloc, cells)?))
}

// What is known where the inputs have these cells.
fn known(alloc: Global, a: &[Cell], b: &[Cell]) -> Result<Known, AllocError>
    requires a { IsTrue (is_input a.now) }
    requires b { IsTrue (is_input b.now) }
    ensures { IfOk result (λ known. Knows chain_program (whole_span chain_program) known) }
{
    let mut maps = Items::new(alloc);
    maps.push(map_of(alloc, a)?)?;
    maps.push(map_of(alloc, b)?)?;
    Ok(Known {
        rows: 2,
        cols: 3,
        maps,
        tables: Items::new(alloc),
        series: Items::new(alloc),
        drains: Items::new(alloc),
        stacks: Items::new(alloc),
        initial: Items::new(alloc),
        last: Items::new(alloc),
    })
}

// Runs the program.
fn run(alloc: Global, program: Program, known: Known) -> Result<StageEnd, AllocError>
    requires program { IsWellFormed program }
    requires span { IsSpan program (whole_span program) 1 }
    requires known { Knows program (whole_span program) known }
{
    let span = Span::Initial {
        first: 0,
        end: program.initial.len() as u32,
    };
    let program = Arc::new(alloc, program)?;
    let known = Arc::new(alloc, known)?;
    PlainRunner::new(BaseKit).run(alloc, &program, span, &known)
}

// Runs the program over inputs of these cells.
fn evaluated(alloc: Global, a: &[Cell], b: &[Cell]) -> Result<StageEnd, AllocError>
    requires a { IsTrue (is_input a.now) }
    requires b { IsTrue (is_input b.now) }
{
    let program = chain(alloc)?;
    let known = known(alloc, a, b)?;
    run(alloc, program, known)
}

// Compares the maps that came out with those that are wanted.
fn compare(rt: &impl Abort, maps: &[StepMap], want: &[(u32, [Cell; 6])]) {
    assert_eq!(rt; maps.len(), want.len());
    for (row, (map, (operation, cells))) in maps.iter().zip(want).enumerate() {
        assert_eq!(rt; map.step, 0, "map {row}");
        assert_eq!(rt; map.operation, *operation, "map {row}");
        assert_eq!(rt; map.cells.cells(), cells.as_slice(), "map {row}");
    }
}

// The first Over of the section `initial`.
fn over_at(statement: u32, operation: u32, row: u32, col: u32) -> OverAt {
    OverAt {
        step: 0,
        statement,
        operation,
        row,
        col,
    }
}

// Compares what came out with an Over that is wanted.
fn compare_over(rt: &impl Abort, end: &StageEnd, want: OverAt) {
    assert_eq!(rt; end.maps.len(), 0);
    assert_eq!(rt; end.over, Some(want));
}

#[test]
fn evaluates_one_by_one(rt: HostRuntime) -> Result<(), Fail> {
    let end = evaluated(rt.alloc(), &A, &B)?;
    let kept = KEPT;
    compare(&rt, end.maps.as_slice(), &kept);
    assert_eq!(rt; end.over, None);
    Ok(())
}

#[test]
fn tells_the_first_over(rt: HostRuntime) -> Result<(), Fail> {
    let alloc = rt.alloc();
    let product = evaluated(alloc, &LARGE_PRODUCT, &LARGE_FACTORS)?;
    compare_over(&rt, &product, over_at(4, 1, 2, 3));
    let class = evaluated(alloc, &LARGE_CLASS, &LARGE_FACTORS)?;
    compare_over(&rt, &class, over_at(5, 1, 1, 1));
    let sum = evaluated(alloc, &LARGE_SUM, &B)?;
    compare_over(&rt, &sum, over_at(4, 2, 2, 1));
    Ok(())
}

// The number that shows that the program is too large, or none.
fn admitted(program: &Program, rows: u32, cols: u32) -> Option<u64>
    requires program { IsWellFormed program.now }
    requires some_rows { 0 < rows }
    requires some_cols { 0 < cols }
    requires few { rows * cols ≤ most_cells }
{
    PlainRunner::new(BaseKit).admit(program, rows, cols)
}

#[test]
fn takes_each_program(rt: HostRuntime) -> Result<(), Fail> {
    let program = chain(rt.alloc())?;
    assert_eq!(rt; admitted(&program, 2048, 2048), None);
    assert_eq!(rt; PlainRunner::new(BaseKit).block(), 1);
    Ok(())
}
