//! The files of the tests.

use outside_io::MemFolder;
use std::alloc::Global;
use std::test::Fail;

/// A file, and its text.
pub type File = (&'static str, &'static str);

/// Two cells, and their sums.
pub static SUM: [File; 2] = [
    (
        "m.mod",
        "binding A = a.asc; areamap A; initial report C = A + A;",
    ),
    (
        "a.asc",
        "ncols 2\nnrows 1\nxllcorner 0\nyllcorner 0\ncellsize 1\n1 2\n",
    ),
];

/// What the sums are.
pub const SUMS: &str = "2 4\n";

/// Drains of two rows that lead out of their left half and back into it.
pub static BACK: [File; 3] = [
    (
        "m.mod",
        "binding L = l.asc : ldd; M = m.asc; areamap L; initial report Q = accuflux(L, M);",
    ),
    (
        "l.asc",
        "ncols 4\nnrows 2\nxllcorner 0\nyllcorner 0\ncellsize 1\n6 6 2 4\n5 4 4 4\n",
    ),
    (
        "m.asc",
        "ncols 4\nnrows 2\nxllcorner 0\nyllcorner 0\ncellsize 1\n1 1 1 1\n1 1 1 1\n",
    ),
];

/// What flows along them.
pub const FLOWS: &str = "1 2 4 1\n8 7 6 1\n";

/// Operations of each class, in both sections.
pub static MIXED: [File; 4] = [
    (
        "m.mod",
        "binding A = a.asc; Z = z.asc : nominal; L = l.asc : ldd; areamap A; timer 1 2 1; \
            initial report W = windowaverage(A, 3); report T = areatotal(A, Z); report J = windowmajority(Z, 5); \
            report U = upstream(L, A); report F = accuflux(L, A + 1); S = F + maptotal(A); \
            dynamic S = accuthresholdflux(L, S, A) + windowtotal(S, 3); report S = S + areaaverage(S, Z); \
            report H = accuthresholdstate(L, S, 2); report C = catchment(L, Z); report R = timeoutput(Z, S);",
    ),
    (
        "a.asc",
        "ncols 5\nnrows 4\nxllcorner 0\nyllcorner 0\ncellsize 1\n1 2 3 4 5\n6 -9999 8 9 10\n11 12 13 14 15\n16 17 18 19 20\n",
    ),
    (
        "z.asc",
        "ncols 5\nnrows 4\nxllcorner 0\nyllcorner 0\ncellsize 1\n1 1 2 2 3\n1 1 2 2 3\n4 1 1 2 3\n4 4 1 1 9\n",
    ),
    (
        "l.asc",
        "ncols 5\nnrows 4\nxllcorner 0\nyllcorner 0\ncellsize 1\n2 2 2 1 2\n2 3 2 2 2\n2 2 2 2 2\n6 6 6 6 5\n",
    ),
];

/// A result out of range in two tiles, of which the first is of the second operation.
pub static OVER: [File; 3] = [
    (
        "m.mod",
        "binding A = a.asc; B = b.asc; areamap A; initial report C = A + A; report D = B + B;",
    ),
    (
        "a.asc",
        "ncols 2\nnrows 1\nxllcorner 0\nyllcorner 0\ncellsize 1\n1 9000000000000\n",
    ),
    (
        "b.asc",
        "ncols 2\nnrows 1\nxllcorner 0\nyllcorner 0\ncellsize 1\n9000000000000 1\n",
    ),
];

/// A folder with these files.
pub(crate) fn folder_of(alloc: Global, files: &[File]) -> Result<MemFolder, Fail> {
    let mut folder = MemFolder::new(alloc);
    for (name, text) in files {
        folder.hold(alloc, name.as_bytes(), text.as_bytes())?;
    }
    Ok(folder)
}
