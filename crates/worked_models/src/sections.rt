//! Scripts of two sections with their first fault of meaning, or how many operations their programs have. The answers were
//! worked out from the rules of the language.

use crate::meaning::sums;
use crate::told::Told::{Area, At, Timed};
use crate::told::{Told, expect_rows, expect_told};
use script_types::MeaningKind::{
    BadStackName, KindMismatch, NameClash, NotAssigned, TooMany, UnknownName, WrongSection,
};
use std::alloc::{AllocError, Global};
use std::process::Abort;
use std::test::Fail;

/// The entries of the tables: grids of each kind, numbers, tables, series and stacks; prefixes that are too long or have a
/// point; files that are one of a stack, or nearly.
const ENTRIES: &str =
    "A = a.asc; N = n.asc : nominal; Z = z.asc : ordinal; B = b.asc : boolean; D = d.asc : directional; K = 3; F = 2.5; \
    M = 4 : nominal; R = r.tss; J = j.tss : ordinal; T = t.tbl; P = rain; U = rain; H = heat : ordinal; W = wet : nominal; \
    G = evaporat; V = evaporate; E = in.flow; I = evaporate : nominal; O = out.tss; RR = r.tss; NN = n.asc; \
    F5 = p0000000.005; F0 = p0000000.000; FP = p00000000005; FS = p000000.0005; FL = p0000100.000; Wet9 = rain0000.009;";

/// The first line that asks for means.
const MEAN: &str = "#! timeoutput mean\n";

/// The sections of scripts with four steps.
static SECTIONS: [(&str, Told); 139] = [
    // time stands in `dynamic` alone
    ("initial X = time(); dynamic Y = 1;", At(1, WrongSection)),
    (
        "initial X = timeinput(P); dynamic Y = 1;",
        At(1, WrongSection),
    ),
    (
        "initial X = timeinputscalar(R, N); dynamic Y = 1;",
        At(1, WrongSection),
    ),
    (
        "initial X = timeoutput(N, A); dynamic Y = 1;",
        At(1, WrongSection),
    ),
    (
        "initial X = timeoutput(); dynamic Y = 1;",
        At(1, WrongSection),
    ),
    ("initial X = time(A); dynamic Y = 1;", At(1, WrongSection)),
    (
        "initial X = timeinput(V); dynamic Y = 1;",
        At(1, BadStackName),
    ),
    (
        "initial X = timeinput(Q); dynamic Y = 1;",
        At(1, UnknownName),
    ),
    ("dynamic X = time();", Timed(0, 1)),
    ("dynamic X = -time() + A;", Timed(0, 2)),
    ("dynamic X = time(A);", At(1, KindMismatch)),
    ("dynamic X = time() == N;", At(1, KindMismatch)),
    ("dynamic X = N; X = time();", At(2, KindMismatch)),
    // a time series is a whole right side
    ("dynamic X = timeoutput(N, A);", Timed(0, 0)),
    ("dynamic X = (timeoutput(N, A));", Timed(0, 0)),
    ("dynamic X = timeoutput(N, A) + 1;", At(1, WrongSection)),
    ("dynamic X = -timeoutput(N, A);", At(1, WrongSection)),
    ("dynamic X = abs(timeoutput(N, A));", At(1, WrongSection)),
    (
        "dynamic X = timeoutput(timeoutput(N, A), A);",
        At(1, WrongSection),
    ),
    (
        "dynamic X = timeoutput(N, timeoutput(N, A));",
        At(1, WrongSection),
    ),
    (
        "dynamic X = if(B then timeoutput(N, A));",
        At(1, WrongSection),
    ),
    // its ids are an input grid of classes
    ("dynamic X = timeoutput(B, A);", Timed(0, 0)),
    ("dynamic X = timeoutput(Z, D);", Timed(0, 0)),
    ("dynamic X = timeoutput((N), A);", Timed(0, 0)),
    ("dynamic X = timeoutput(A, N);", At(1, KindMismatch)),
    ("dynamic X = timeoutput(D, N);", At(1, KindMismatch)),
    ("dynamic X = timeoutput(5, A);", At(1, WrongSection)),
    ("dynamic X = timeoutput(K, A);", At(1, WrongSection)),
    ("dynamic X = timeoutput(M, A);", At(1, WrongSection)),
    (
        "dynamic X = timeoutput(nominal(A), A);",
        At(1, WrongSection),
    ),
    ("dynamic X = timeoutput(time(), A);", At(1, WrongSection)),
    (
        "dynamic X = timeoutput(timeinput(W), A);",
        At(1, WrongSection),
    ),
    (
        "dynamic Y = timeinput(W); X = timeoutput(W, A);",
        At(2, NameClash),
    ),
    (
        "dynamic Y = timeoutput(W, A); X = timeinput(W);",
        At(2, NameClash),
    ),
    ("dynamic X = timeoutput(Q, A);", At(1, UnknownName)),
    (
        "initial C = N; dynamic X = timeoutput(C, A);",
        At(2, WrongSection),
    ),
    // the number and the kinds of its operands
    ("dynamic X = timeoutput();", At(1, KindMismatch)),
    ("dynamic X = timeoutput(N);", At(1, KindMismatch)),
    ("dynamic X = timeoutput(N, A, A);", At(1, KindMismatch)),
    ("dynamic X = timeoutput(M);", At(1, WrongSection)),
    ("dynamic X = timeoutput(N, A + N);", At(1, KindMismatch)),
    ("dynamic X = timeoutput(N, A + 1);", Timed(0, 1)),
    ("dynamic X = timeoutput(N, 5.5);", Timed(0, 0)),
    ("dynamic X = timeoutput(N, time());", Timed(0, 0)),
    // the kind of a time series is that of its second operand
    ("dynamic report W = timeoutput(N, N);", Timed(0, 0)),
    ("dynamic report W = timeoutput(N, M);", Timed(0, 0)),
    ("dynamic report W = timeoutput(N, A);", At(1, KindMismatch)),
    ("dynamic report W = timeoutput(N, 5);", At(1, KindMismatch)),
    ("dynamic X = timeoutput(N, A); X = N;", At(2, KindMismatch)),
    ("dynamic X = timeoutput(N, A); X = A;", Timed(0, 1)),
    (
        "initial X = N; dynamic X = timeoutput(N, A);",
        At(2, KindMismatch),
    ),
    ("dynamic report K = timeoutput(N, A);", At(1, NameClash)),
    // the target of a time series is not read
    (
        "dynamic report O = timeoutput(N, A); X = O + 1;",
        At(2, KindMismatch),
    ),
    (
        "dynamic X = O + 1; report O = timeoutput(N, A);",
        At(1, NotAssigned),
    ),
    ("dynamic O = timeoutput(N, O);", At(1, NotAssigned)),
    (
        "dynamic C = timeoutput(N, A); C = A; X = C;",
        At(3, KindMismatch),
    ),
    (
        "initial C = 1; X = C; dynamic report C = timeoutput(N, A);",
        At(2, KindMismatch),
    ),
    (
        "initial C = 1; dynamic X = C; C = timeoutput(N, A);",
        At(2, KindMismatch),
    ),
    (
        "initial C = 1; dynamic C = timeoutput(N, C);",
        At(2, KindMismatch),
    ),
    ("initial C = 1; dynamic C = timeoutput(N, A);", Timed(1, 0)),
    ("dynamic C = timeoutput(5, A); X = C;", At(1, WrongSection)),
    ("dynamic X = C; C = timeoutput(5, A);", At(1, NotAssigned)),
    // stacks
    ("dynamic X = timeinput(P);", Timed(0, 1)),
    ("dynamic X = timeinput(P) + timeinput(P);", Timed(0, 1)),
    ("dynamic X = timeinput(P) + timeinput(U);", Timed(0, 1)),
    ("dynamic X = timeinput(H) < Z;", Timed(0, 1)),
    ("dynamic X = timeinput(H) + A;", At(1, KindMismatch)),
    ("dynamic X = timeinput(W) == N;", Timed(0, 1)),
    ("dynamic X = timeinput();", At(1, KindMismatch)),
    ("dynamic X = timeinput(P, A);", At(1, KindMismatch)),
    ("dynamic X = timeinput(5);", At(1, KindMismatch)),
    ("dynamic X = timeinput(K);", At(1, KindMismatch)),
    ("dynamic X = timeinput(A + 1);", At(1, KindMismatch)),
    ("dynamic X = timeinput(A);", At(1, NameClash)),
    ("dynamic X = timeinput(P) + P;", At(1, NameClash)),
    ("dynamic X = P; Y = timeinput(P);", At(2, NameClash)),
    ("initial C = P; dynamic Y = timeinput(P);", At(2, NameClash)),
    ("dynamic X = timeinput(C); C = 1;", At(1, NotAssigned)),
    ("dynamic C = 1; X = timeinput(C);", At(2, KindMismatch)),
    // series
    ("dynamic X = timeinputscalar(R, N);", Timed(0, 1)),
    ("dynamic X = timeinputordinal(R, B) < Z;", Timed(0, 2)),
    ("dynamic X = timeinputdirectional(R, Z) == D;", Timed(0, 2)),
    (
        "dynamic X = timeinputboolean(J, N) and timeinputboolean(J, Z);",
        Timed(0, 3),
    ),
    ("dynamic X = timeinputnominal(R, 5) == N;", Timed(0, 2)),
    ("dynamic X = timeinputscalar(R, K);", Timed(0, 1)),
    ("dynamic X = timeinputscalar(R, 1.5);", At(1, KindMismatch)),
    ("dynamic X = timeinputscalar(R, F);", At(1, KindMismatch)),
    ("dynamic X = timeinputscalar(R, A);", At(1, KindMismatch)),
    ("dynamic X = timeinputscalar(R, D);", At(1, KindMismatch)),
    ("dynamic X = timeinputscalar(R, timeinput(W));", Timed(0, 1)),
    ("dynamic X = timeinputscalar(R);", At(1, KindMismatch)),
    ("dynamic X = timeinputscalar();", At(1, KindMismatch)),
    ("dynamic X = timeinputscalar(R, N, N);", At(1, KindMismatch)),
    ("dynamic X = timeinputscalar(5, N);", At(1, KindMismatch)),
    ("dynamic X = timeinputscalar(K, N);", At(1, KindMismatch)),
    ("dynamic X = timeinputldd(R, N);", At(1, UnknownName)),
    (
        "dynamic X = timeinputscalar(R, N); Y = timeinputnominal(R, N);",
        At(2, NameClash),
    ),
    ("dynamic X = timeinputscalar(R, N) + R;", At(1, NameClash)),
    (
        "dynamic X = timeinputscalar(R, N) + lookupscalar(R, N);",
        At(1, NameClash),
    ),
    (
        "dynamic X = timeinputscalar(R, N) + timeinput(R);",
        At(1, NameClash),
    ),
    (
        "initial C = lookupscalar(T, A); dynamic X = lookupscalar(T, N);",
        Timed(1, 1),
    ),
    (
        "initial C = lookupscalar(T, A); dynamic X = lookupscalar(T, A, N);",
        At(2, NameClash),
    ),
    (
        "initial C = lookupscalar(T, A); dynamic X = timeinputscalar(T, N);",
        At(2, NameClash),
    ),
    // what a name has where it is read
    ("dynamic X = C; C = 1;", At(1, NotAssigned)),
    ("dynamic C = C + 1;", At(1, NotAssigned)),
    ("dynamic C = 1; X = C;", Timed(0, 2)),
    ("initial C = 1; dynamic X = C;", Timed(1, 1)),
    ("initial C = 1; dynamic C = C + 1;", Timed(1, 1)),
    ("initial C = 1; dynamic X = C; C = X + 1;", Timed(1, 2)),
    ("initial X = C; dynamic C = 1;", At(1, NotAssigned)),
    ("initial X = C; C = 1; dynamic C = C;", At(1, NotAssigned)),
    ("dynamic X = C + Q; C = 1;", At(1, NotAssigned)),
    ("dynamic X = Q + C; C = 1;", At(1, UnknownName)),
    // kinds go through both sections
    ("initial C = N; dynamic C = A;", At(2, KindMismatch)),
    ("initial C = N; dynamic C = 5;", Timed(1, 1)),
    ("initial C = N; dynamic C = 5.5;", At(2, KindMismatch)),
    (
        "initial C = N; dynamic X = C + 1; C = M;",
        At(2, KindMismatch),
    ),
    ("initial C = N; dynamic X = C == 1; C = M;", Timed(1, 2)),
    ("dynamic A = 1;", Area(NameClash)),
    // prefixes of stacks that are read
    ("dynamic X = timeinput(G);", Timed(0, 1)),
    ("dynamic X = timeinput(V);", At(1, BadStackName)),
    ("dynamic X = timeinput(E);", At(1, BadStackName)),
    ("dynamic X = A; Y = timeinput(E);", At(2, BadStackName)),
    ("dynamic X = timeinput(V, A);", At(1, BadStackName)),
    ("dynamic X = timeinput(V) + Q;", At(1, BadStackName)),
    ("dynamic X = Q + timeinput(V);", At(1, UnknownName)),
    ("dynamic X = N + (A + timeinput(V));", At(1, BadStackName)),
    // and of stacks that are written
    ("dynamic report V = A;", At(1, BadStackName)),
    ("dynamic report E = A;", At(1, BadStackName)),
    ("dynamic V = A; E = A;", Timed(0, 2)),
    (
        "initial report V = A; report E = A; dynamic C = 1;",
        Timed(2, 1),
    ),
    ("dynamic report V = timeoutput(N, A);", Timed(0, 0)),
    ("dynamic report abcdefghi = A;", At(1, BadStackName)),
    ("dynamic report abcdefgh = A;", Timed(0, 1)),
    ("dynamic report V = N;", At(1, BadStackName)),
    ("dynamic report G = N;", Timed(0, 1)),
    ("dynamic report Y = N; report Y = A;", At(2, KindMismatch)),
    ("dynamic report I = A;", At(1, KindMismatch)),
    ("dynamic report V = A + Q;", At(1, UnknownName)),
];

/// The first lines of scripts with four steps, and their sections.
static FIRST_LINES: [(&str, &str, Told); 14] = [
    // a time series by the mean has one operation more, and one of scalars alone
    (MEAN, "dynamic X = timeoutput(N, A);", Timed(0, 1)),
    (MEAN, "dynamic X = timeoutput(N, A + 1);", Timed(0, 2)),
    (MEAN, "dynamic X = timeoutput(B, 5.5);", Timed(0, 1)),
    (MEAN, "dynamic X = timeoutput(Z, F);", Timed(0, 1)),
    (MEAN, "dynamic X = timeoutput(N, K);", Timed(0, 1)),
    (MEAN, "dynamic X = timeoutput(N, time());", Timed(0, 1)),
    (MEAN, "dynamic X = timeoutput(N, N);", At(1, KindMismatch)),
    (MEAN, "dynamic X = timeoutput(N, D);", At(1, KindMismatch)),
    (MEAN, "dynamic X = timeoutput(N, M);", At(1, KindMismatch)),
    (
        MEAN,
        "dynamic X = timeoutput(N, A > 1);",
        At(1, KindMismatch),
    ),
    (MEAN, "dynamic X = timeoutput(A, A);", At(1, KindMismatch)),
    (MEAN, "dynamic X = timeoutput(5, N);", At(1, WrongSection)),
    (
        MEAN,
        "initial X = timeoutput(N, A); dynamic Y = 1;",
        At(1, WrongSection),
    ),
    (
        "#! timeoutput means\n",
        "dynamic X = timeoutput(N, N);",
        Timed(0, 0),
    ),
];

/// The last step of a script, and its sections.
static STEPS: [(&str, &str, Told); 69] = [
    // a number of a step has as many digits as the name leaves it
    ("999", "dynamic report abcdefgh = A;", Timed(0, 1)),
    ("1000", "dynamic report abcdefgh = A;", At(1, BadStackName)),
    ("9999", "dynamic report abcdefg = A;", Timed(0, 1)),
    ("10000", "dynamic report abcdefg = A;", At(1, BadStackName)),
    ("99999", "dynamic report abcdef = A;", Timed(0, 1)),
    ("100000", "dynamic report abcdef = A;", At(1, BadStackName)),
    ("100000", "dynamic report abcde = A;", Timed(0, 1)),
    ("000999", "dynamic report abcdefgh = A;", Timed(0, 1)),
    ("999", "dynamic X = timeinput(G);", Timed(0, 1)),
    ("1000", "dynamic X = timeinput(G);", At(1, BadStackName)),
    ("1000", "dynamic X = Q + timeinput(G);", At(1, UnknownName)),
    ("100000", "dynamic X = timeinput(P);", Timed(0, 1)),
    // a file and one of a stack
    (
        "4",
        "initial report F5 = A; dynamic report p = A;",
        Timed(1, 1),
    ),
    (
        "5",
        "initial report F5 = A; dynamic report p = A;",
        At(2, NameClash),
    ),
    (
        "100000",
        "initial report F5 = A; dynamic report p = A;",
        At(2, NameClash),
    ),
    (
        "9",
        "dynamic report p = A; report F5 = timeoutput(N, A);",
        At(2, NameClash),
    ),
    (
        "4",
        "dynamic report p = A; report F5 = timeoutput(N, A);",
        Timed(0, 1),
    ),
    (
        "9",
        "dynamic report F5 = timeoutput(N, A); report p = A;",
        At(2, NameClash),
    ),
    (
        "9",
        "initial report F0 = A; dynamic report p = A;",
        Timed(1, 1),
    ),
    (
        "9",
        "initial report FP = A; dynamic report p = A;",
        Timed(1, 1),
    ),
    (
        "9",
        "initial report FS = A; dynamic report p = A;",
        Timed(1, 1),
    ),
    (
        "100000",
        "initial report FL = A; dynamic report p = A;",
        At(2, NameClash),
    ),
    (
        "99999",
        "initial report FL = A; dynamic report p = A;",
        Timed(1, 1),
    ),
    ("9", "initial report F5 = A; dynamic p = A;", Timed(1, 1)),
    ("9", "initial F5 = A; dynamic report p = A;", Timed(1, 1)),
    (
        "9",
        "initial report p = A; dynamic report F5 = timeoutput(N, A);",
        Timed(1, 0),
    ),
    // two stacks
    ("9", "dynamic report X = A; report rain = A;", Timed(0, 2)),
    (
        "9",
        "dynamic report P = A; report rain = A;",
        At(2, NameClash),
    ),
    (
        "9",
        "dynamic report rain = A; report P = A;",
        At(2, NameClash),
    ),
    (
        "9",
        "dynamic report P = A; report P = N;",
        At(2, KindMismatch),
    ),
    ("9", "dynamic report P = A; report P = A;", At(2, NameClash)),
    (
        "9",
        "dynamic report ab = A; report ab0 = A;",
        At(2, NameClash),
    ),
    (
        "9",
        "dynamic report ab0 = A; report ab = A;",
        At(2, NameClash),
    ),
    (
        "9",
        "dynamic report ab = A; report ab000000 = A;",
        At(2, NameClash),
    ),
    (
        "1",
        "dynamic report ab000000 = A; report ab = A;",
        At(2, NameClash),
    ),
    ("9", "dynamic report ab = A; report ab1 = A;", Timed(0, 2)),
    ("9", "dynamic report ab = A; report abc = A;", Timed(0, 2)),
    ("9", "dynamic report ab = A; report abc0 = A;", Timed(0, 2)),
    (
        "9",
        "dynamic report a1 = A; report a10 = A;",
        At(2, NameClash),
    ),
    ("9", "dynamic report a1 = A; report a11 = A;", Timed(0, 2)),
    (
        "99999",
        "dynamic report x = A; report x00001 = A;",
        Timed(0, 2),
    ),
    (
        "999",
        "dynamic report x = A; report x0000001 = A;",
        Timed(0, 2),
    ),
    (
        "9",
        "initial report ab = A; dynamic report ab = A; report ab1 = A;",
        Timed(1, 2),
    ),
    // a stack that is read
    (
        "9",
        "dynamic X = timeinput(P); report rain = A;",
        At(2, NameClash),
    ),
    (
        "9",
        "dynamic report rain = A; X = timeinput(P);",
        At(1, NameClash),
    ),
    (
        "9",
        "dynamic X = timeinput(P); report rain0 = A;",
        At(2, NameClash),
    ),
    (
        "9",
        "dynamic X = timeinput(P); report rain1 = A;",
        Timed(0, 2),
    ),
    (
        "9",
        "dynamic X = timeinput(P); report Wet9 = timeoutput(N, A);",
        At(2, NameClash),
    ),
    (
        "8",
        "dynamic X = timeinput(P); report Wet9 = timeoutput(N, A);",
        Timed(0, 1),
    ),
    (
        "9",
        "initial report Wet9 = A; dynamic X = timeinput(P);",
        At(1, NameClash),
    ),
    ("9", "dynamic X = P; report rain = A;", Timed(0, 2)),
    ("9", "dynamic X = A; report rain = A;", Timed(0, 2)),
    (
        "9",
        "dynamic X = timeinput(P) + timeinput(U); report C = A;",
        Timed(0, 2),
    ),
    ("9", "dynamic X = timeinput(P) + Wet9;", Timed(0, 1)),
    // a file that is read
    (
        "9",
        "initial C = F5; dynamic report p = A;",
        At(2, NameClash),
    ),
    ("4", "initial C = F5; dynamic report p = A;", Timed(1, 1)),
    ("9", "dynamic report p = A; C = F5;", At(1, NameClash)),
    (
        "9",
        "dynamic C = timeinputscalar(F5, N); report p = A;",
        At(2, NameClash),
    ),
    (
        "9",
        "dynamic C = lookupscalar(F5, N); report p = A;",
        At(2, NameClash),
    ),
    (
        "9",
        "dynamic X = timeinputscalar(R, N); report RR = timeoutput(N, A);",
        At(2, NameClash),
    ),
    (
        "9",
        "dynamic report RR = A; X = timeinputscalar(R, N);",
        At(1, BadStackName),
    ),
    (
        "9",
        "dynamic X = timeoutput(N, A); report NN = timeoutput(Z, A);",
        At(2, NameClash),
    ),
    (
        "9",
        "dynamic X = timeoutput(Z, A); report NN = timeoutput(Z, A);",
        Timed(0, 0),
    ),
    (
        "9",
        "dynamic report O = timeoutput(N, A); report O = timeoutput(N, A);",
        At(2, NameClash),
    ),
    (
        "9",
        "dynamic report O = timeoutput(N, A); O = timeoutput(N, A);",
        Timed(0, 0),
    ),
    (
        "9",
        "dynamic report O = timeoutput(N, A); report O = A;",
        At(2, BadStackName),
    ),
    (
        "9",
        "initial report out = A; dynamic report out = A;",
        Timed(1, 1),
    ),
    (
        "9",
        "initial report C = A; dynamic report C = timeoutput(N, A);",
        At(2, NameClash),
    ),
    // a fault of a statement comes before those of reports
    (
        "9",
        "dynamic report ab = A; report ab0 = A; X = Q;",
        At(3, UnknownName),
    ),
];

// The script with this last step and these sections is told this.
fn expect_timed(
    rt: &impl Abort,
    alloc: Global,
    steps: &str,
    sections: &str,
    expected: Told,
    row: &str,
) -> Result<(), Fail> {
    let text = format!(in alloc; "binding {ENTRIES} areamap A; timer 1 {steps} 1; {sections}")?;
    expect_told(rt, alloc, &text, expected, row)
}

// Each script with this last step and these sections is told what stands beside them.
fn expect_steps(rt: &impl Abort, alloc: Global, rows: &[(&str, &str, Told)]) -> Result<(), Fail> {
    for (steps, sections, expected) in rows {
        expect_timed(rt, alloc, steps, sections, *expected, sections)?;
    }
    Ok(())
}

#[test]
fn first_faults_of_sections(rt: HostRuntime) -> Result<(), Fail> {
    expect_rows(&rt, rt.alloc(), ENTRIES, "timer 1 4 1;", &SECTIONS)
}

#[test]
fn first_faults_by_the_first_line(rt: HostRuntime) -> Result<(), Fail> {
    let alloc = rt.alloc();
    for (first, sections, expected) in FIRST_LINES.iter() {
        let text = format!(in alloc;
            "{first}binding {ENTRIES} areamap A; timer 1 4 1; {sections}"
        )?;
        expect_told(&rt, alloc, &text, *expected, sections)?;
    }
    Ok(())
}

#[test]
fn first_faults_by_the_last_step(rt: HostRuntime) -> Result<(), Fail> {
    expect_steps(&rt, rt.alloc(), &STEPS)
}

#[test]
fn most_operations_of_each_section(rt: HostRuntime) -> Result<(), Fail> {
    let alloc = rt.alloc();
    let mut text = String::from_str(alloc, "initial ")?;
    text.push_str(&sums(alloc, 128)?)?;
    text.push_str("dynamic ")?;
    text.push_str(&sums(alloc, 128)?)?;
    expect_timed(&rt, alloc, "4", &text, Timed(8192, 8192), "most operations")?;
    text.push_str("X = timeoutput(N, Q);")?;
    expect_timed(&rt, alloc, "4", &text, Timed(8192, 8192), "a series too")?;
    let first = format!(in alloc; "{MEAN}binding {ENTRIES} areamap A; timer 1 4 1; {text}")?;
    expect_told(&rt, alloc, &first, At(257, TooMany), "a series by the mean")?;
    text.push_str("Q = time();")?;
    expect_timed(&rt, alloc, "4", &text, At(258, TooMany), "one more")
}

// A part of a script for each number from 1 to `count`: its start, the number, its middle, the number, its end.
fn numbered(
    alloc: Global,
    into: &mut String,
    count: usize,
    parts: &[&str; 3],
) -> Result<(), AllocError> {
    let [start, middle, end] = parts;
    for at in 0..count {
        let n = at + 1;
        into.push_str(&format!(in alloc; "{start}{n}{middle}{n}{end}")?)?;
    }
    Ok(())
}

// A script that reads so many stacks, one a statement, and each twice, is told this.
fn expect_reads(
    rt: &impl Abort,
    alloc: Global,
    count: usize,
    end: &str,
    expected: Told,
) -> Result<(), Fail> {
    let mut text = String::from_str(alloc, "binding A = a.asc; ")?;
    numbered(alloc, &mut text, count, &["P", " = p", "; "])?;
    text.push_str("areamap A; timer 1 4 1; dynamic ")?;
    numbered(
        alloc,
        &mut text,
        count,
        &["X = timeinput(P", ") + timeinput(P", "); "],
    )?;
    text.push_str(end)?;
    expect_told(rt, alloc, &text, expected, "stacks that are read")
}

// A script that writes so many stacks is told this.
fn expect_writes(
    rt: &impl Abort,
    alloc: Global,
    count: usize,
    end: &str,
    expected: Told,
) -> Result<(), Fail> {
    let mut text = String::from_str(
        alloc,
        "binding A = a.asc; N = n.asc : nominal; areamap A; timer 1 4 1; dynamic ",
    )?;
    numbered(alloc, &mut text, count, &["report s", "x = ", "; "])?;
    text.push_str(end)?;
    expect_told(rt, alloc, &text, expected, "stacks that are written")
}

#[test]
fn most_stacks(rt: HostRuntime) -> Result<(), Fail> {
    let alloc = rt.alloc();
    expect_reads(&rt, alloc, 64, "", Timed(0, 64))?;
    expect_reads(&rt, alloc, 64, "Y = timeinput(P1);", Timed(0, 65))?;
    expect_reads(&rt, alloc, 65, "", At(65, TooMany))?;
    expect_reads(&rt, alloc, 64, "Y = A + Q;", At(65, UnknownName))?;
    expect_writes(&rt, alloc, 64, "", Timed(0, 64))?;
    expect_writes(&rt, alloc, 65, "", At(65, TooMany))?;
    expect_writes(
        &rt,
        alloc,
        64,
        "s65x = 1; report T = timeoutput(N, A);",
        Timed(0, 65),
    )?;
    expect_writes(&rt, alloc, 65, "X = Q;", At(65, TooMany))
}
