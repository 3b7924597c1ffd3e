//! Scripts with their first fault of meaning, or how many operations their programs have. The answers were worked out from
//! the rules of the language.

use crate::told::Told::{Area, At, Entry, Fine};
use crate::told::{Told, expect_pairs, expect_rows, expect_told};
use script_types::MeaningKind::{KindMismatch, NameClash, NotAssigned, TooMany, UnknownName};
use std::alloc::{AllocError, Global};
use std::test::Fail;

/// The entries of the tables: inputs of each kind, numbers with a kind and without, files that are written.
const ENTRIES: &str =
    "A = a.asc; S = s.asc : scalar; N = n.asc : nominal; Z = z.asc : ordinal; B = b.asc : boolean; \
    D = d.asc : directional; T = t.asc; K = 3; F = 2.5; M = 4 : nominal; G = 0.5 : scalar; R = r.asc; P = p.asc : nominal; \
    W = a.asc; V = t.asc; U = E; L = l.tbl; J = j.tbl : nominal; I = l.tbl;";

/// Statements that stand below the area map `A`.
static STATEMENTS: [(&str, Told); 127] = [
    // names
    ("report C = A + X;", At(1, UnknownName)),
    ("report C = A + A;", Fine(1)),
    ("report C = X;", At(1, UnknownName)),
    ("report C = Y + A; Y = A;", At(1, NotAssigned)),
    ("Y = A; report C = Y + A;", Fine(2)),
    ("Y = Y + 1;", At(1, NotAssigned)),
    ("Y = 1; Y = Y + 1;", Fine(2)),
    // words and numbers of operands
    ("report C = sqrt(A);", At(1, UnknownName)),
    ("report C = copy(A);", At(1, UnknownName)),
    ("report C = lookupldd(A, T);", At(1, UnknownName)),
    ("report C = abs(A, A);", At(1, KindMismatch)),
    ("report C = min();", At(1, KindMismatch)),
    ("report C = min(A);", At(1, KindMismatch)),
    // operands come before their operation, from the left
    ("report C = X + Y; Y = 1;", At(1, UnknownName)),
    ("report C = Y + X; Y = 1;", At(1, NotAssigned)),
    ("report C = sqrt(Y); Y = 1;", At(1, NotAssigned)),
    ("report C = N + 1 + X;", At(1, KindMismatch)),
    ("report C = X + (N + 1);", At(1, UnknownName)),
    // kinds of arithmetic
    ("report C = N + A;", At(1, KindMismatch)),
    ("report C = 1 - 2;", Fine(1)),
    ("report C = -A;", Fine(1)),
    ("report C = -N;", At(1, KindMismatch)),
    ("report C = abs(A mod S);", Fine(2)),
    // numbers without a kind take the kind of the first operand that has one
    ("report C = min(5, Z);", Fine(1)),
    ("report C = min(5.5, Z);", At(1, KindMismatch)),
    ("report C = min(5.0, Z);", Fine(1)),
    ("report C = max(K, Z);", Fine(1)),
    ("report C = max(F, Z);", At(1, KindMismatch)),
    ("report C = min(5.5, 6);", Fine(1)),
    (
        "report C = min(5, 6); report E = C == N;",
        At(2, KindMismatch),
    ),
    ("report C = min(5, 6); report E = C == A;", Fine(2)),
    ("report C = M == N;", Fine(1)),
    ("report C = M == Z;", At(1, KindMismatch)),
    ("report C = G == Z;", At(1, KindMismatch)),
    // operands that must agree, agree all together, and are nested from the left
    ("report C = min(A, S, 1);", Fine(2)),
    ("report C = min(Z, 1, A);", At(1, KindMismatch)),
    ("report C = max(1, Z, 2);", Fine(2)),
    ("report C = max(1, Z, 2.5);", At(1, KindMismatch)),
    ("report C = cover(N, 1, N, 2);", Fine(3)),
    ("report C = cover(B, 2);", At(1, KindMismatch)),
    ("report C = min(N, N);", At(1, KindMismatch)),
    // comparisons and logic
    ("report C = N < N;", At(1, KindMismatch)),
    ("report C = Z < 3;", Fine(1)),
    ("report C = D == D;", Fine(1)),
    ("report C = D != 7;", Fine(1)),
    ("report C = A == N;", At(1, KindMismatch)),
    ("report C = A and B;", At(1, KindMismatch)),
    ("report C = 1 and B;", Fine(1)),
    ("report C = 3 and B;", At(1, KindMismatch)),
    ("report C = not (A > 1 or B);", Fine(3)),
    // branches
    ("report C = if(B then N);", Fine(1)),
    ("report C = if(A then N);", At(1, KindMismatch)),
    ("report C = if(1 then N);", Fine(1)),
    ("report C = if(2 then N);", At(1, KindMismatch)),
    ("report C = if(B then N else Z);", At(1, KindMismatch)),
    ("report C = if(B then 7 else N);", Fine(1)),
    ("Q = N; Q = if(B then 5);", At(2, KindMismatch)),
    ("Q = A; Q = if(B then 5);", Fine(2)),
    // conversions; a number without a kind is a scalar in them
    ("report C = boolean(N);", Fine(1)),
    ("report C = boolean(D);", At(1, KindMismatch)),
    ("report C = nominal(2.5);", Fine(1)),
    ("report C = nominal(D);", At(1, KindMismatch)),
    ("report C = scalar(D);", Fine(1)),
    ("report C = directional(N);", At(1, KindMismatch)),
    ("report C = directional(A);", Fine(1)),
    ("report C = defined(0.5);", Fine(1)),
    ("report C = defined(D) == B;", Fine(2)),
    // right sides without a kind
    ("report C = 5;", Fine(1)),
    ("report C = 5.5; report E = C + A;", Fine(2)),
    ("Q = N; Q = 5;", Fine(2)),
    ("Q = N; Q = 5.5;", At(2, KindMismatch)),
    ("report P = 5;", Fine(1)),
    ("report P = 5.5;", At(1, KindMismatch)),
    ("report C = F;", Fine(1)),
    // targets
    ("report P = A;", At(1, KindMismatch)),
    ("report R = N;", Fine(1)),
    ("Q = A; Q = N;", At(2, KindMismatch)),
    ("report K = A;", At(1, NameClash)),
    ("report M = 5;", At(1, NameClash)),
    ("report M = 5.5;", At(1, KindMismatch)),
    ("K = X;", At(1, UnknownName)),
    ("K = N;", At(1, NameClash)),
    ("A = 1;", Area(NameClash)),
    ("A = X;", Area(NameClash)),
    // lookup tables: the words of their kinds, one to four keys, and keys of each kind
    ("report C = lookupscalar(L, N) + A;", Fine(2)),
    ("report C = lookupboolean(L, A) and B;", Fine(2)),
    ("report C = lookupnominal(L, A) == N;", Fine(2)),
    ("report C = lookupordinal(L, A) < Z;", Fine(2)),
    ("report C = lookupdirectional(L, A) == D;", Fine(2)),
    (
        "report C = lookupdirectional(L, A) == A;",
        At(1, KindMismatch),
    ),
    ("report C = lookupscalar(L, B, N, Z, D);", Fine(1)),
    (
        "report C = lookupscalar(L, A, A, A, A, A);",
        At(1, KindMismatch),
    ),
    ("report C = lookupscalar(L);", At(1, KindMismatch)),
    ("report C = lookupscalar();", At(1, KindMismatch)),
    ("report C = lookupscalar(L, A + 1);", Fine(2)),
    // a number without a kind is a scalar as a key
    ("report C = lookupscalar(L, 2.5, K);", Fine(1)),
    ("report C = lookupscalar(L, 9000000000000);", Fine(1)),
    (
        "report C = lookupscalar(L, 9000000000001);",
        At(1, KindMismatch),
    ),
    ("report C = lookupnominal(L, 5);", Fine(1)),
    // what is no table
    ("report C = lookupscalar(5, A);", At(1, KindMismatch)),
    ("report C = lookupscalar(K, A);", At(1, KindMismatch)),
    ("report C = lookupscalar(M, A);", At(1, KindMismatch)),
    ("report C = lookupscalar(A + 1, A);", At(1, KindMismatch)),
    ("report C = lookupscalar(X, A);", At(1, UnknownName)),
    ("Y = A; report C = lookupscalar(Y, A);", At(2, KindMismatch)),
    ("report C = lookupscalar(Y, A); Y = A;", At(1, NotAssigned)),
    ("report C = L(A);", At(1, UnknownName)),
    // an input has one role, by its first use
    ("report C = lookupscalar(A, N);", At(1, NameClash)),
    ("report C = lookupscalar(L, N) + L;", At(1, NameClash)),
    ("report C = L; E = lookupscalar(L, N);", At(2, NameClash)),
    ("report C = L + lookupscalar(L, N);", At(1, NameClash)),
    ("C = lookupscalar(L, N); E = lookupscalar(L, Z);", Fine(2)),
    (
        "C = lookupscalar(L, N); E = lookupscalar(L, N, N);",
        At(2, NameClash),
    ),
    (
        "C = lookupscalar(L, N); E = lookupnominal(L, N);",
        At(2, NameClash),
    ),
    (
        "C = lookupscalar(L, N); E = lookupscalar(L);",
        At(2, NameClash),
    ),
    // a table is a file that is read, and is bound with any kind
    (
        "C = lookupscalar(L, N); report E = lookupscalar(J, N);",
        Fine(2),
    ),
    (
        "C = lookupscalar(J, N) + lookupnominal(L, N);",
        At(1, KindMismatch),
    ),
    ("C = lookupscalar(L, N); report I = A;", At(2, NameClash)),
    // reports
    ("report C = A; report C = A;", At(2, NameClash)),
    ("C = A; report C = A;", Fine(2)),
    ("report W = S;", At(1, NameClash)),
    ("W = S;", Fine(1)),
    ("report V = A;", Fine(1)),
    ("report V = T;", At(1, NameClash)),
    ("report U = A; report E = A;", At(2, NameClash)),
    ("report C = A; report C = A; Q = X;", At(3, UnknownName)),
    (
        "report W = A; report C = A; report C = A;",
        At(1, NameClash),
    ),
];

/// Area maps and statements.
static AREAS: [(&str, &str, Told); 7] = [
    ("m.map", "report C = A;", Fine(1)),
    ("m.map", "A = 1;", Fine(1)),
    ("K", "report C = A;", Area(KindMismatch)),
    ("K", "K = 1;", Area(KindMismatch)),
    ("K", "report C = X;", Area(KindMismatch)),
    ("C", "report C = A;", At(1, NameClash)),
    ("C", "C = A; report E = C;", Fine(2)),
];

/// Two entries of `binding` and the area map, with the statement `report C = A;`.
static PAIRS: [(&str, &str, Told); 7] = [
    ("A = a; A = b;", "A", Entry(2, NameClash)),
    ("A = 2 : boolean; A = 2;", "A", Entry(1, KindMismatch)),
    ("A = a; Q = 1.5 : ordinal;", "A", Entry(2, KindMismatch)),
    ("A = a; Q = 360 : directional;", "A", Entry(2, KindMismatch)),
    ("A = 1; Q = 1;", "A", Area(KindMismatch)),
    ("A = a; Q = 1.0 : ordinal;", "A", Fine(1)),
    ("A = a : ldd; A = a;", "A", Entry(2, NameClash)),
];

#[test]
fn first_faults_of_statements(rt: HostRuntime) -> Result<(), Fail> {
    expect_rows(&rt, rt.alloc(), ENTRIES, "initial", &STATEMENTS)
}

#[test]
fn first_faults_of_areas_and_bindings(rt: HostRuntime) -> Result<(), Fail> {
    let alloc = rt.alloc();
    let front = format!(in alloc; "binding {ENTRIES} areamap ")?;
    expect_pairs(&rt, alloc, (front.as_str(), "; initial ", ""), &AREAS)?;
    let parts = ("binding ", " areamap ", "; initial report C = A;");
    expect_pairs(&rt, alloc, parts, &PAIRS)
}

/// Statements of 64 sums each.
pub(crate) fn sums(alloc: Global, count: usize) -> Result<String, AllocError> {
    let mut text = String::new(alloc);
    for _ in 0..count {
        text.push_str("Q = A")?;
        for _ in 0..64 {
            text.push_str(" + A")?;
        }
        text.push_str("; ")?;
    }
    Ok(text)
}

#[test]
fn most_operations(rt: HostRuntime) -> Result<(), Fail> {
    let alloc = rt.alloc();
    let most = sums(alloc, 128)?;
    let text = format!(in alloc; "binding {ENTRIES} areamap A; initial {most}")?;
    expect_told(&rt, alloc, &text, Fine(8192), "most operations")?;
    let text = format!(in alloc; "{text}Q = A;")?;
    expect_told(&rt, alloc, &text, At(129, TooMany), "one more")
}
