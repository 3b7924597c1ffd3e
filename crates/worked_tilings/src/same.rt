//! Scripts that come to their end, with the same files by tiles of each size.

use crate::runs::Told::Done;
use crate::runs::{Case, expect_cases};
use std::test::Fail;

/// Operations of each class in `initial`.
static INITIAL: [Case; 11] = [
    // windows over corners of tiles, and one over the whole map
    (
        "initial report W = windowtotal(A, 3); report M = windowmajority(Z, 5); report D = windowdiversity(Z, 3); \
            report V = windowaverage(A, 31); report N = windowminimum(A, 3); report X = windowmaximum(A, 1);",
        Done(6, 0),
    ),
    // classes in one tile and in all
    (
        "initial report T = areatotal(A, Z); report E = areaaverage(A, Z); report N = areaminimum(A, Z); \
            report X = areamaximum(A, Z); report D = areadiversity(Y, Z); report J = areamajority(Y, Z); \
            report G = areaarea(Z); report S = maptotal(A); report I = mapminimum(A); report U = mapmaximum(A);",
        Done(10, 0),
    ),
    // classes and values that are missing
    (
        "initial report T = areatotal(A, Y); report E = areaaverage(A, Y); report G = areaarea(Y); \
            report J = areamajority(Y, Z); report D = areadiversity(Z, Y);",
        Done(5, 0),
    ),
    // windows of a map that the span makes, over corners and over the whole map
    (
        "initial C = A * 2; report N = windowminimum(C, 5); report V = windowaverage(C, 31); report W = windowtotal(V, 3);",
        Done(3, 0),
    ),
    // operands that the span makes, of windows and of areas
    (
        "initial C = A + 1; K = if(A > 9 then Z else 5); report W = windowtotal(C, 3) + areatotal(C, K); \
            report X = C * windowaverage(areaarea(K), 3);",
        Done(2, 0),
    ),
    // one step along drain directions
    (
        "initial report P = upstream(L, A); report Q = downstream(L, P + 1);",
        Done(2, 0),
    ),
    // each transport, of inputs and of numbers
    (
        "initial report F = accuflux(L, A); report H = accuthresholdflux(L, A, 7); report S = accuthresholdstate(L, 2, A); \
            report C = catchment(L, Z);",
        Done(4, 0),
    ),
    // transports of maps that the span makes, one of another's results
    (
        "initial C = A + 1; T = if(A > 9 then 3 else A); report F = accuflux(L, C) + windowtotal(C, 3); \
            report H = accuthresholdflux(L, F, T); report S = accuthresholdstate(L, upstream(L, H), T);",
        Done(3, 0),
    ),
    // a transport, and behind a mask a stage without one
    (
        "initial report F = accuflux(L, A); K = lddmask(L, A > 3); report H = upstream(K, F) + areatotal(F, Z);",
        Done(2, 0),
    ),
    // no operation but a copy
    ("initial report C = A;", Done(1, 0)),
    // a stage without operations
    (
        "initial K = lddmask(L, 1); report U = upstream(K, A);",
        Done(1, 0),
    ),
];

/// Operations over steps.
static STEPS: [Case; 4] = [
    // a name of the step before, under a window
    (
        "timer 1 3 1; initial S = A; dynamic report S = windowaverage(S, 3) + S; report B = areatotal(S, Z) - time();",
        Done(6, 3),
    ),
    // a transport of a name of the step before
    (
        "timer 1 3 1; initial S = A; dynamic report S = accuflux(L, S) + upstream(L, time()); \
            report H = accuthresholdstate(L, S, A);",
        Done(6, 3),
    ),
    // no section `initial`
    ("timer 1 2 1; dynamic report W = A + time();", Done(2, 2)),
    // a series of samples
    (
        "timer 1 2 1; initial S = A; dynamic S = S + A; report R = timeoutput(Z, S);",
        Done(1, 2),
    ),
];

/// Samples by the mean over ids in many tiles, of what the span makes, of its number and of a value of the step before.
static MEANS: [Case; 1] = [(
    "timer 1 2 1; initial S = A; dynamic report R = timeoutput(Z, S); S = S + windowtotal(A, 3); \
        report Q = timeoutput(Y, S); report T = timeoutput(Y, time());",
    Done(3, 2),
)];

#[test]
fn tiles_give_the_means_of_whole_maps(rt: HostRuntime) -> Result<(), Fail> {
    expect_cases(&rt, rt.alloc(), "#! timeoutput mean\n", &MEANS)
}

#[test]
fn tiles_give_the_files_of_whole_maps(rt: HostRuntime) -> Result<(), Fail> {
    expect_cases(&rt, rt.alloc(), "", &INITIAL)
}

#[test]
fn tiles_give_the_files_of_whole_maps_over_steps(rt: HostRuntime) -> Result<(), Fail> {
    expect_cases(&rt, rt.alloc(), "", &STEPS)
}
