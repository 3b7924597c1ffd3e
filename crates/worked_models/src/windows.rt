//! Scripts with windows, areas and totals of maps, with their first fault of meaning, or how many operations their programs
//! have. The answers were worked out from the rules of the language.

use crate::told::Told::{At, Fine};
use crate::told::{Told, expect_rows};
use script_types::MeaningKind::{BadWindow, KindMismatch, NotAssigned, UnknownName};
use std::test::Fail;

/// The entries of the table: a grid of each kind, and a number without a kind and one with a kind.
const ENTRIES: &str =
    "A = a.asc; N = n.asc : nominal; Z = z.asc : ordinal; B = b.asc : boolean; D = d.asc : directional; L = l.asc : ldd; \
    K = 3; O = 3 : scalar;";

/// Statements that stand below the area map `A`.
static STATEMENTS: [(&str, Told); 74] = [
    // a length is a literal that is odd, whole and from 1 to 31
    ("C = windowtotal(A, 3);", Fine(1)),
    ("C = windowtotal(A, 1);", Fine(1)),
    ("C = windowtotal(A, 31);", Fine(1)),
    ("C = windowtotal(A, 3.0);", Fine(1)),
    ("C = windowtotal(A, 0.5e1);", Fine(1)),
    ("C = windowtotal(A, (3));", Fine(1)),
    ("C = windowtotal(A, 2);", At(1, BadWindow)),
    ("C = windowtotal(A, 0);", At(1, BadWindow)),
    ("C = windowtotal(A, 33);", At(1, BadWindow)),
    ("C = windowtotal(A, 2.5);", At(1, BadWindow)),
    ("C = windowtotal(A, 1e1);", At(1, BadWindow)),
    ("C = windowtotal(A, -3);", At(1, BadWindow)),
    ("C = windowtotal(A, 1 + 2);", At(1, BadWindow)),
    ("C = windowtotal(A, K);", At(1, BadWindow)),
    ("C = windowtotal(A, O);", At(1, BadWindow)),
    ("C = windowtotal(A, A);", At(1, BadWindow)),
    ("C = windowtotal(A, 99999999999);", At(1, BadWindow)),
    // a bad length comes before the number and the kinds of the operands, and behind the faults of these
    ("C = windowtotal(A, 2, A);", At(1, BadWindow)),
    ("C = windowtotal(A, 3, A);", At(1, KindMismatch)),
    ("C = windowtotal(A);", At(1, KindMismatch)),
    ("C = windowtotal();", At(1, KindMismatch)),
    ("C = windowtotal(N, 2);", At(1, BadWindow)),
    ("C = windowtotal(N, 3);", At(1, KindMismatch)),
    ("C = windowtotal(L, 2);", At(1, BadWindow)),
    ("C = windowtotal(L, 3);", At(1, KindMismatch)),
    ("C = windowtotal(X, 2);", At(1, UnknownName)),
    ("C = windowtotal(A, X);", At(1, UnknownName)),
    ("C = windowtotal(A, Y); Y = 3;", At(1, NotAssigned)),
    ("C = windowtotal(N + 1, 2);", At(1, KindMismatch)),
    // kinds of windows
    ("C = windowaverage(A + 1, 5) + A;", Fine(3)),
    ("C = windowtotal(5, 3) + A;", Fine(2)),
    ("C = windowminimum(Z, 3) < Z;", Fine(2)),
    ("C = windowmaximum(A, 3) < A;", Fine(2)),
    ("C = windowminimum(5.5, 3) < A;", Fine(2)),
    ("C = windowminimum(5, 3) < Z;", At(1, KindMismatch)),
    ("C = windowmaximum(N, 3);", At(1, KindMismatch)),
    ("C = windowdiversity(N, 3) + A;", Fine(2)),
    ("C = windowdiversity(B, 3) == B;", At(1, KindMismatch)),
    ("C = windowdiversity(A, 3);", At(1, KindMismatch)),
    ("C = windowmajority(N, 3) == N;", Fine(2)),
    ("C = windowmajority(B, 3) and B;", Fine(2)),
    ("C = windowmajority(D, 3);", At(1, KindMismatch)),
    ("C = windowmajority(5, 3) == N;", Fine(2)),
    ("C = windowmajority(5, 3) == A;", At(1, KindMismatch)),
    ("C = windowmajority(5.5, 3);", At(1, KindMismatch)),
    // areas, whose class without a kind is nominal
    ("C = areatotal(A, N) + A;", Fine(2)),
    ("C = areaaverage(5.5, B);", Fine(1)),
    ("C = areatotal(A, 5);", Fine(1)),
    ("C = areatotal(A, K);", Fine(1)),
    ("C = areatotal(A, 5.5);", At(1, KindMismatch)),
    ("C = areatotal(A, A);", At(1, KindMismatch)),
    ("C = areatotal(N, N);", At(1, KindMismatch)),
    ("C = areatotal(A);", At(1, KindMismatch)),
    ("C = areaminimum(Z, N) < Z;", Fine(2)),
    ("C = areaminimum(5.5, N) < A;", Fine(2)),
    ("C = areamaximum(B, N);", At(1, KindMismatch)),
    ("C = areadiversity(5, N) + A;", Fine(2)),
    ("C = areadiversity(5.5, N);", At(1, KindMismatch)),
    ("C = areadiversity(A, N);", At(1, KindMismatch)),
    ("C = areamajority(N, Z) == N;", Fine(2)),
    ("C = areamajority(5, Z) == N;", Fine(2)),
    ("C = areamajority(5, Z) == Z;", At(1, KindMismatch)),
    ("C = areaarea(Z) + A;", Fine(2)),
    ("C = areaarea(5);", Fine(1)),
    ("C = areaarea(5.5);", At(1, KindMismatch)),
    ("C = areaarea(D);", At(1, KindMismatch)),
    ("C = areaarea(N, N);", At(1, KindMismatch)),
    // whole maps
    ("C = maptotal(A) + A;", Fine(2)),
    ("C = maptotal(5);", Fine(1)),
    ("C = maptotal(Z);", At(1, KindMismatch)),
    ("C = maptotal(A, A);", At(1, KindMismatch)),
    ("C = mapminimum(Z) < Z;", Fine(2)),
    ("C = mapmaximum(5.5) < A;", Fine(2)),
    ("C = mapminimum(N);", At(1, KindMismatch)),
];

#[test]
fn windows_areas_and_totals(rt: HostRuntime) -> Result<(), Fail> {
    expect_rows(&rt, rt.alloc(), ENTRIES, "initial", &STATEMENTS)
}
