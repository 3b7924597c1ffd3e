//! Programs that are written out.

use crate::texts::{program_of, script_of};
use cell_values::Cell::Val;
use cell_values::Kind::{self, Boolean, Nominal, Scalar};
use map_meaning::Operand::{Initial, Input, Last, Literal, Now, Stack, Time, Unused};
use map_meaning::{InputUse, Op, Operand, Operation, OutputKind, OutputUse, Program, Role};
use std::alloc::Global;
use std::process::Abort;
use std::test::Fail;

/// An operation: what it computes, its kind, its operands, the input that is its table or series, its statement and its
/// number in it, and whether it is kept.
type Written = (Op, Kind, &'static [Operand], [u32; 3], bool);

/// An input: its file, its role and its kind.
type Read = (&'static str, Role, Kind);

/// An output: its file, its form, its value, its kind and its statement.
type Put = (&'static str, OutputKind, Operand, Kind, u32);

/// What is wanted of a program: its area map and its last step, its inputs, the operations of its sections, and its outputs.
type Wanted = (
    [u32; 2],
    &'static [Read],
    &'static [Written],
    &'static [Written],
    &'static [Put],
);

/// A script of two sections. Each name that is bound to a file and not used is no input.
const TWO_SECTIONS: &str =
    "binding Unused = u.asc; Tab = t.tbl : boolean; Id = id.asc : nominal; P = rain; Out = o.tss; A = a.asc; \
    R = r.tss : ordinal; H = heat : boolean; Two = 2; Sum = total; areamap A; timer 1 12 1; \
    initial \
    Base = lookupscalar(Tab, A, Id); \
    Sum = 0; \
    Only = A + Base; \
    Part = Only * Two; \
    report Start = Part - 1; \
    Later = A; \
    Early = 7; \
    dynamic \
    Was = Sum; \
    Wet = timeinputscalar(R, Id) + timeinput(P); \
    report Sum = Sum + Wet * time(); \
    report Out = timeoutput(Id, Sum); \
    Dry = if(timeinput(H) then Only else Was); \
    report E = timeinput(P); \
    report Tss1 = timeoutput(Id, Only); \
    report Tss2 = timeoutput(Id, Sum - Base); \
    report Tss3 = timeoutput(Id, Later); \
    Later = Wet; \
    report Tss4 = timeoutput(Id, A); \
    report Tss5 = timeoutput(Id, time()); \
    report Tss6 = timeoutput(Id, timeinput(H)); \
    report Tss7 = timeoutput(Id, Two); \
    Sink = timeoutput(Id, Dry + 1); \
    Wet = time(); \
    Wet = Wet + Early; \
    Early = Sum; Early = Dry;";

static TWO_SECTIONS_WANTED: Wanted = (
    [3, 12],
    &[
        ("t.tbl", Role::Table { keys: 2 }, Scalar),
        ("id.asc", Role::Grid, Nominal),
        ("rain", Role::Stack, Scalar),
        ("a.asc", Role::Grid, Scalar),
        ("r.tss", Role::Series, Scalar),
        ("heat", Role::Stack, Boolean),
    ],
    &[
        (
            Op::LookupScalar,
            Scalar,
            &[Input(3), Input(1), Unused, Unused],
            [0, 1, 1],
            true,
        ),
        (
            Op::CopyOf,
            Scalar,
            &[Literal(Scalar, Val(0)), Unused, Unused, Unused],
            [0, 2, 1],
            true,
        ),
        (
            Op::Add,
            Scalar,
            &[Input(3), Initial(0), Unused, Unused],
            [0, 3, 1],
            true,
        ),
        (
            Op::Mul,
            Scalar,
            &[Initial(2), Literal(Scalar, Val(2_000_000)), Unused, Unused],
            [0, 4, 1],
            false,
        ),
        (
            Op::Sub,
            Scalar,
            &[Initial(3), Literal(Scalar, Val(1_000_000)), Unused, Unused],
            [0, 5, 1],
            true,
        ),
        (
            Op::CopyOf,
            Scalar,
            &[Input(3), Unused, Unused, Unused],
            [0, 6, 1],
            true,
        ),
        (
            Op::CopyOf,
            Scalar,
            &[Literal(Scalar, Val(7_000_000)), Unused, Unused, Unused],
            [0, 7, 1],
            true,
        ),
    ],
    &[
        (
            Op::CopyOf,
            Scalar,
            &[
                Last {
                    dynamic: 4,
                    initial: 1,
                },
                Unused,
                Unused,
                Unused,
            ],
            [0, 8, 1],
            false,
        ),
        (
            Op::TimeInputScalar,
            Scalar,
            &[Input(1), Unused, Unused, Unused],
            [4, 9, 1],
            false,
        ),
        (
            Op::Add,
            Scalar,
            &[Now(1), Stack(2), Unused, Unused],
            [0, 9, 2],
            false,
        ),
        (
            Op::Mul,
            Scalar,
            &[Now(2), Time, Unused, Unused],
            [0, 10, 1],
            false,
        ),
        (
            Op::Add,
            Scalar,
            &[
                Last {
                    dynamic: 4,
                    initial: 1,
                },
                Now(3),
                Unused,
                Unused,
            ],
            [0, 10, 2],
            true,
        ),
        (
            Op::IfElse,
            Scalar,
            &[Stack(5), Initial(2), Now(0), Unused],
            [0, 12, 1],
            false,
        ),
        (
            Op::CopyOf,
            Scalar,
            &[Stack(2), Unused, Unused, Unused],
            [0, 13, 1],
            true,
        ),
        (
            Op::Sub,
            Scalar,
            &[Now(4), Initial(0), Unused, Unused],
            [0, 15, 1],
            true,
        ),
        (
            Op::CopyOf,
            Scalar,
            &[Now(2), Unused, Unused, Unused],
            [0, 17, 1],
            true,
        ),
        (
            Op::Add,
            Scalar,
            &[Now(5), Literal(Scalar, Val(1_000_000)), Unused, Unused],
            [0, 22, 1],
            false,
        ),
        (
            Op::CopyOf,
            Scalar,
            &[Time, Unused, Unused, Unused],
            [0, 23, 1],
            false,
        ),
        (
            Op::Add,
            Scalar,
            &[
                Now(10),
                Last {
                    dynamic: 13,
                    initial: 6,
                },
                Unused,
                Unused,
            ],
            [0, 24, 1],
            false,
        ),
        (
            Op::CopyOf,
            Scalar,
            &[Now(4), Unused, Unused, Unused],
            [0, 25, 1],
            false,
        ),
        (
            Op::CopyOf,
            Scalar,
            &[Now(5), Unused, Unused, Unused],
            [0, 26, 1],
            true,
        ),
    ],
    &[
        ("Start", OutputKind::InitialGrid, Initial(4), Scalar, 5),
        ("total", OutputKind::StackGrid, Now(4), Scalar, 10),
        ("o.tss", OutputKind::Sample { ids: 1 }, Now(4), Scalar, 11),
        ("E", OutputKind::StackGrid, Now(6), Scalar, 13),
        (
            "Tss1",
            OutputKind::Sample { ids: 1 },
            Initial(2),
            Scalar,
            14,
        ),
        ("Tss2", OutputKind::Sample { ids: 1 }, Now(7), Scalar, 15),
        (
            "Tss3",
            OutputKind::Sample { ids: 1 },
            Last {
                dynamic: 8,
                initial: 5,
            },
            Scalar,
            16,
        ),
        ("Tss4", OutputKind::Sample { ids: 1 }, Input(3), Scalar, 18),
        ("Tss5", OutputKind::Sample { ids: 1 }, Time, Scalar, 19),
        ("Tss6", OutputKind::Sample { ids: 1 }, Stack(5), Boolean, 20),
        (
            "Tss7",
            OutputKind::Sample { ids: 1 },
            Literal(Scalar, Val(2_000_000)),
            Scalar,
            21,
        ),
    ],
);

/// A script of one section. The inputs are A, S, N and B.
const ONE_SECTION: &str =
    "binding A = a.asc; S = s.asc : scalar; Z = z.asc : ordinal; N = n.asc : nominal; B = b.asc : boolean; areamap A; \
    initial Y = A + S; report C = min(Y, 2, A); report E = if(B then Y else C); Q = N;";

static ONE_SECTION_WANTED: Wanted = (
    [0, 0],
    &[
        ("a.asc", Role::Grid, Scalar),
        ("s.asc", Role::Grid, Scalar),
        ("n.asc", Role::Grid, Nominal),
        ("b.asc", Role::Grid, Boolean),
    ],
    &[
        (
            Op::Add,
            Scalar,
            &[Input(0), Input(1), Unused, Unused],
            [0, 1, 1],
            false,
        ),
        (
            Op::Min,
            Scalar,
            &[Initial(0), Literal(Scalar, Val(2_000_000)), Unused, Unused],
            [0, 2, 1],
            false,
        ),
        (
            Op::Min,
            Scalar,
            &[Initial(1), Input(0), Unused, Unused],
            [0, 2, 2],
            true,
        ),
        (
            Op::IfElse,
            Scalar,
            &[Input(3), Initial(0), Initial(2), Unused],
            [0, 3, 1],
            true,
        ),
        (
            Op::CopyOf,
            Nominal,
            &[Input(2), Unused, Unused, Unused],
            [0, 4, 1],
            false,
        ),
    ],
    &[],
    &[
        ("C", OutputKind::InitialGrid, Initial(2), Scalar, 2),
        ("E", OutputKind::InitialGrid, Initial(3), Scalar, 3),
    ],
);

/// A script whose area map is no binding, and so its first input.
const AREA_ALONE: &str =
    "binding R = r.tss; Id = id.asc : nominal; areamap rain0000.009; timer 1 3 1; \
    dynamic report S = timeinputscalar(R, Id); report T = timeoutput(Id, S);";

static AREA_ALONE_WANTED: Wanted = (
    [0, 3],
    &[
        ("rain0000.009", Role::Grid, Scalar),
        ("r.tss", Role::Series, Scalar),
        ("id.asc", Role::Grid, Nominal),
    ],
    &[],
    &[(
        Op::TimeInputScalar,
        Scalar,
        &[Input(2), Unused, Unused, Unused],
        [1, 1, 1],
        true,
    )],
    &[
        ("S", OutputKind::StackGrid, Now(0), Scalar, 1),
        ("T", OutputKind::Sample { ids: 2 }, Now(0), Scalar, 2),
    ],
);

// The program of the script of a text.
fn program_at(alloc: Global, text: &str) -> Result<Program, Fail> {
    let script = script_of(alloc, text)?;
    program_of(alloc, &script)
}

// These are the operations.
fn expect_operations(rt: &impl Abort, operations: &[Operation], expected: &[Written]) {
    assert_eq!(rt; operations.len(), expected.len());
    for (operation, row) in operations.iter().zip(expected) {
        let (op, kind, operands, [file, statement, number], kept) = *row;
        assert_eq!(rt;
            (
                operation.op,
                operation.kind,
                [operation.file, operation.statement, operation.number],
                operation.kept
            ),
            (op, kind, [file, statement, number], kept),
            "operation {number} of statement {statement}"
        );
        let read = [operation.a, operation.b, operation.c, operation.d];
        assert_eq!(rt;
            read.as_slice(),
            operands,
            "operands of {number} of {statement}"
        );
    }
}

// These are the inputs.
fn expect_inputs(rt: &impl Abort, inputs: &[InputUse], expected: &[Read]) {
    assert_eq!(rt; inputs.len(), expected.len());
    for (input, (file, role, kind)) in inputs.iter().zip(expected) {
        assert_eq!(rt; input.file.bytes(), file.as_bytes(), "not {file}");
        assert_eq!(rt; (input.role, input.kind), (*role, *kind), "of {file}");
    }
}

// These are the outputs.
fn expect_outputs(rt: &impl Abort, outputs: &[OutputUse], expected: &[Put]) {
    assert_eq!(rt; outputs.len(), expected.len());
    for (output, (file, form, value, kind, statement)) in outputs.iter().zip(expected) {
        assert_eq!(rt; output.file.bytes(), file.as_bytes(), "not {file}");
        assert_eq!(rt;
            (
                output.kind,
                output.value,
                output.cell_kind,
                output.statement
            ),
            (*form, *value, *kind, *statement),
            "of {file}"
        );
    }
}

// The script of this text has this program.
fn expect_program(rt: &impl Abort, alloc: Global, text: &str, wanted: &Wanted) -> Result<(), Fail> {
    let program = program_at(alloc, text)?;
    assert_eq!(rt; [program.area, program.steps], wanted.0);
    expect_inputs(rt, program.inputs.as_slice(), wanted.1);
    expect_operations(rt, program.initial.as_slice(), wanted.2);
    expect_operations(rt, program.dynamic.as_slice(), wanted.3);
    expect_outputs(rt, program.outputs.as_slice(), wanted.4);
    Ok(())
}

#[test]
fn a_program_of_one_section(rt: HostRuntime) -> Result<(), Fail> {
    expect_program(&rt, rt.alloc(), ONE_SECTION, &ONE_SECTION_WANTED)
}

#[test]
fn a_program_of_both_sections(rt: HostRuntime) -> Result<(), Fail> {
    expect_program(&rt, rt.alloc(), TWO_SECTIONS, &TWO_SECTIONS_WANTED)
}

#[test]
fn an_area_map_that_is_no_binding_is_the_first_input(rt: HostRuntime) -> Result<(), Fail> {
    expect_program(&rt, rt.alloc(), AREA_ALONE, &AREA_ALONE_WANTED)
}
