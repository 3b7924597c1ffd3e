//! Scripts with drain maps, with their first fault of meaning, or how many operations their programs have. The answers were
//! worked out from the rules of the language.

use crate::told::Told::{Area, At, Entry, Fine, Timed};
use crate::told::{Told, expect_pairs, expect_rows, expect_told};
use script_types::MeaningKind::{
    BadWindow, DrainPlace, KindMismatch, NameClash, NotAssigned, UnknownName, WrongSection,
};
use std::test::Fail;

/// The entries of the tables: a drain map and grids of other kinds, numbers, a target of kind ldd, stacks of kind ldd, of which
/// one has a prefix that is too long, a table and a series.
const ENTRIES: &str =
    "A = a.asc; N = n.asc : nominal; Z = z.asc : ordinal; B = b.asc : boolean; D = d.asc : directional; L = l.asc : ldd; \
    K = 3; I = 5 : nominal; Q = q.asc : ldd; P = drains : ldd; U = evaporate : ldd; V = evaporate; T = t.tbl; R = r.tss;";

/// Statements that stand below the area map `A`.
static STATEMENTS: [(&str, Told); 82] = [
    // operations along a drain map
    ("C = upstream(L, A);", Fine(1)),
    ("C = downstream(L, 5.5);", Fine(1)),
    ("C = accuflux(L, A + 1);", Fine(2)),
    ("C = accuthresholdflux(L, A, 5);", Fine(1)),
    ("C = accuthresholdstate(L, 5, A) + A;", Fine(2)),
    ("C = accuflux(L);", At(1, KindMismatch)),
    ("C = accuflux();", At(1, KindMismatch)),
    ("C = accuflux(L, N);", At(1, KindMismatch)),
    ("C = accuflux(L, L);", At(1, KindMismatch)),
    ("C = accuflux(A, A);", At(1, KindMismatch)),
    ("C = accuflux(A, L);", At(1, KindMismatch)),
    ("C = accuthresholdflux(L, A);", At(1, KindMismatch)),
    ("C = upstream(I, A);", At(1, KindMismatch)),
    // points, which are nominal without a kind
    ("C = catchment(L, Z) < Z;", Fine(2)),
    ("C = catchment(L, 5) == N;", Fine(2)),
    ("C = catchment(L, 5) == A;", At(1, KindMismatch)),
    ("C = catchment(L, 5.5);", At(1, KindMismatch)),
    ("C = catchment(L, A);", At(1, KindMismatch)),
    ("C = catchment(L, D);", At(1, KindMismatch)),
    // a free operand in the place of a drain map
    ("C = accuflux(5);", At(1, DrainPlace)),
    ("C = accuflux(5, A, A);", At(1, DrainPlace)),
    ("C = accuflux(K, A);", At(1, DrainPlace)),
    ("C = upstream(5.5, N);", At(1, DrainPlace)),
    ("C = catchment(5, A);", At(1, DrainPlace)),
    ("C = lddmask(5, B);", At(1, DrainPlace)),
    ("C = accuflux(5, X);", At(1, UnknownName)),
    ("C = accuflux(X, A);", At(1, UnknownName)),
    // an operand of kind ldd that is no name, and a mask out of its place
    ("C = accuflux(lddmask(L, B), A);", At(1, DrainPlace)),
    ("C = defined(lddmask(L, B));", At(1, DrainPlace)),
    ("C = abs(lddmask(L));", At(1, DrainPlace)),
    ("C = lddmask(lddmask(L, B), B);", At(1, DrainPlace)),
    ("C = if(B then lddmask(L, B));", At(1, DrainPlace)),
    ("C = N + lddmask(L, N);", At(1, DrainPlace)),
    ("C = lddmask(L, N) + N;", At(1, DrainPlace)),
    // a mask at its place
    ("C = lddmask(L, B);", Fine(0)),
    ("C = (lddmask(L, B));", Fine(0)),
    ("C = lddmask(L, A > 5);", Fine(1)),
    ("C = lddmask(L, 1);", Fine(0)),
    ("report Q = lddmask(L, B);", Fine(0)),
    ("C = lddmask(L, N);", At(1, KindMismatch)),
    ("C = lddmask(L, A);", At(1, KindMismatch)),
    ("C = lddmask(L, 2);", At(1, KindMismatch)),
    ("C = lddmask(L);", At(1, KindMismatch)),
    ("C = lddmask();", At(1, KindMismatch)),
    ("C = lddmask(L, B, B);", At(1, KindMismatch)),
    ("C = lddmask(A, B);", At(1, KindMismatch)),
    ("C = lddmask(B, L);", At(1, KindMismatch)),
    ("C = lddmask(L, accuflux(5, A) > 1);", At(1, DrainPlace)),
    // a free right side whose target is a drain map
    ("Q = 5;", At(1, DrainPlace)),
    ("Q = K;", At(1, DrainPlace)),
    ("Q = 5.5;", At(1, DrainPlace)),
    ("C = L; C = 5;", At(2, DrainPlace)),
    ("C = lddmask(L, B); C = K;", At(2, DrainPlace)),
    ("Q = -5;", At(1, KindMismatch)),
    ("Q = A;", At(1, KindMismatch)),
    ("Q = I;", At(1, KindMismatch)),
    ("C = L; C = A;", At(2, KindMismatch)),
    ("C = A; C = L;", At(2, KindMismatch)),
    ("N = L;", At(1, KindMismatch)),
    ("K = L;", At(1, NameClash)),
    // a drain map that is a name
    ("C = L;", Fine(0)),
    ("Q = L;", Fine(0)),
    ("report C = L;", Fine(0)),
    ("C = L; E = accuflux(C, A);", Fine(1)),
    (
        "C = lddmask(L, B); E = lddmask(C, A > 5); F = accuflux(E, A);",
        Fine(2),
    ),
    ("C = accuflux(E, A); E = L;", At(1, NotAssigned)),
    // operations that no row gives the kind ldd
    ("C = if(B then L);", At(1, KindMismatch)),
    ("C = if(B then L else L);", At(1, KindMismatch)),
    ("C = cover(L, L);", At(1, KindMismatch)),
    ("C = cover(L, 5);", At(1, KindMismatch)),
    ("C = L == 5;", At(1, KindMismatch)),
    ("C = L == L;", At(1, KindMismatch)),
    ("C = L + 1;", At(1, KindMismatch)),
    ("C = min(L, L);", At(1, KindMismatch)),
    ("C = areatotal(A, L);", At(1, KindMismatch)),
    ("C = lookupscalar(T, L);", At(1, KindMismatch)),
    // conversions of drain directions
    ("C = defined(L) and B;", Fine(2)),
    ("C = nominal(L) == N;", Fine(2)),
    ("C = ordinal(L) < Z;", Fine(2)),
    ("C = scalar(L) + A;", Fine(2)),
    ("C = boolean(L);", At(1, KindMismatch)),
    ("C = directional(L);", At(1, KindMismatch)),
];

/// The sections of scripts with four steps.
static SECTIONS: [(&str, Told); 31] = [
    // a statement of kind ldd in `dynamic`
    ("dynamic C = L;", At(1, DrainPlace)),
    ("dynamic K = L;", At(1, DrainPlace)),
    ("dynamic Q = L;", At(1, DrainPlace)),
    ("dynamic C = lddmask(L, B);", At(1, DrainPlace)),
    ("dynamic C = lddmask(L, N);", At(1, DrainPlace)),
    ("dynamic report V = L;", At(1, DrainPlace)),
    ("initial C = L; dynamic C = L;", At(2, DrainPlace)),
    ("initial C = A; dynamic C = L;", At(2, DrainPlace)),
    ("dynamic Q = 5;", At(1, DrainPlace)),
    ("dynamic Q = A;", At(1, KindMismatch)),
    // one of `initial` is read in both sections
    (
        "initial C = lddmask(L, B); dynamic X = accuflux(C, A);",
        Timed(0, 1),
    ),
    ("dynamic X = accuflux(L, A) + time();", Timed(0, 2)),
    (
        "initial C = lddmask(L, A > 5); X = accuflux(C, A); dynamic X = upstream(C, X);",
        Timed(2, 1),
    ),
    // a stack of kind ldd, at the node of its name
    ("dynamic X = timeinput(P);", At(1, DrainPlace)),
    ("dynamic X = timeinput(P, A);", At(1, DrainPlace)),
    (
        "initial X = timeinput(P); dynamic Y = 1;",
        At(1, DrainPlace),
    ),
    ("dynamic X = N + timeinput(P);", At(1, DrainPlace)),
    ("dynamic X = accuflux(timeinput(P), A);", At(1, DrainPlace)),
    ("dynamic X = timeinput(U);", At(1, DrainPlace)),
    (
        "initial X = accuflux(P, A); dynamic Y = timeinput(P);",
        At(2, NameClash),
    ),
    ("initial X = accuflux(P, A); dynamic Y = 1;", Timed(1, 1)),
    // samples and series have no drain maps
    ("dynamic X = timeoutput(N, L);", At(1, KindMismatch)),
    ("dynamic X = timeoutput(L, A);", At(1, KindMismatch)),
    (
        "initial X = timeoutput(N, L); dynamic Y = 1;",
        At(1, WrongSection),
    ),
    (
        "dynamic X = timeoutput(N, lddmask(L, B));",
        At(1, DrainPlace),
    ),
    ("dynamic X = timeinputscalar(R, L);", At(1, KindMismatch)),
    ("dynamic X = timeoutput(N, accuflux(L, A));", Timed(0, 1)),
    // operations that no row gives the kind ldd
    ("dynamic X = if(B then L);", At(1, KindMismatch)),
    ("dynamic X = cover(L, L);", At(1, KindMismatch)),
    ("dynamic X = windowmajority(L, 2);", At(1, BadWindow)),
    ("dynamic X = scalar(L);", Timed(0, 1)),
];

/// An entry and an area map, with the statement `C = A;`.
static AREAS: [(&str, &str, Told); 5] = [
    ("X = 5 : ldd;", "A", Entry(1, KindMismatch)),
    ("X = 5 : ldd;", "X", Entry(1, KindMismatch)),
    ("X = x.asc : ldd;", "X", Fine(1)),
    ("X = 5;", "X", Area(KindMismatch)),
    ("C = c.asc : ldd;", "A", At(1, KindMismatch)),
];

/// A script that routes rain over a drain map, with its time series.
const ROUTING: &str =
    "binding Ldd = made_ldd.asc : ldd; Zone = made_zone.asc : nominal; Soil = made_soil.asc; Rain = made_rain.tss; Q = q; \
    T = made_q.tss; areamap Ldd; timer 1 4 1; initial Store = 0; dynamic \
    Wet = timeinputscalar(Rain, Zone) + windowaverage(Soil, 3); Store = Store + accuthresholdstate(Ldd, Wet, Soil); \
    report Q = accuthresholdflux(Ldd, Wet, Soil); report Mean = areaaverage(Wet, Zone); report T = timeoutput(Zone, Q);";

#[test]
fn drain_maps_of_initial(rt: HostRuntime) -> Result<(), Fail> {
    expect_rows(&rt, rt.alloc(), ENTRIES, "initial", &STATEMENTS)
}

#[test]
fn drain_maps_of_both_sections(rt: HostRuntime) -> Result<(), Fail> {
    expect_rows(&rt, rt.alloc(), ENTRIES, "timer 1 4 1;", &SECTIONS)?;
    expect_told(&rt, rt.alloc(), ROUTING, Timed(1, 7), "routing")
}

#[test]
fn drain_maps_of_bindings(rt: HostRuntime) -> Result<(), Fail> {
    let parts = ("binding ", " A = a.asc; areamap ", "; initial C = A;");
    expect_pairs(&rt, rt.alloc(), parts, &AREAS)
}
