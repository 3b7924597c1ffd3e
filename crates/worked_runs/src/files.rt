//! The files of the tests. A map is written as its row of cells, or as a whole text.

use outside_io::MemFolder;
use std::alloc::Global;
use std::test::Fail;

/// A file: its name, and the row of a grid, or the whole text where it has a line feed.
pub type File = (&'static str, &'static str);

/// What stands below the size in the head of an input that is written as a row.
pub const INPUT: &str = "xllcorner 0\nyllcorner 0\ncellsize 1\n";

/// The same of a map that is put where such an input is the area map.
pub const PUT: &str = "xllcorner 0\nyllcorner 0\ncellsize 1\nNODATA_value 1e31\n";

/// The same of a map that is put where the area map is `r.asc` below, which lies elsewhere than the other inputs.
pub const PUT_ELSEWHERE: &str = "xllcorner 10\nyllcorner 20\ncellsize 5\nNODATA_value 1e31\n";

/// Inputs of one row of three cells: the area map, two of scalars, one of classes and one of conditions; and two that are
/// too short and too wide.
pub const INPUTS: &[File] = &[
    (
        "r.asc",
        "ncols 3\nnrows 1\nxllcorner 10\nyllcorner 20\ncellsize 5\n2 0.5 10\n",
    ),
    ("a.asc", "1 5 -9999"),
    ("b.asc", "4 3 1"),
    ("n.asc", "1 2 3"),
    ("q.asc", "1 0 1"),
    (
        "short.asc",
        "ncols 3\nnrows 1\nxllcorner 10\nyllcorner 20\ncellsize 5\n",
    ),
    ("wide.asc", "1 2 3 4"),
];

/// A script over three inputs, which are read in another order than they are used, and with three outputs. One input is
/// used twice, one is bound and never used, and no file of its name is there.
pub const THREE: &str =
    "binding N = n.asc : nominal; Unused = u.asc; A = a.asc; Rain = r.asc; Wet = wet.asc; \
    areamap Rain; \
    initial Sum = Rain + A; report Wet = cover(Sum, A, 7); Twice = 2 * Rain; \
    report Class = if(N == 2 then 9 else N); report Twice = Twice + Rain;";

/// What that script puts, in order.
pub const THREE_PUTS: &[File] = &[
    ("wet.asc", "3 5.5 7"),
    ("Class", "1 9 3"),
    ("Twice", "6 1.5 30"),
];

/// Rainfall and runoff: over two steps, with a table, a series, a drain map, samples and a total of the map.
pub const RUNOFF: &str = "# rainfall and runoff\nbinding\n\
    RainTSS = rain.tss;  RainZone = zone.asc : nominal;  Soil = soil.asc : nominal;\n\
    InfilTbl = infil.tbl;  Ldd = ldd.asc : ldd;  Runoff = q;  OutTSS = out.tss;\n\
    Factor = 0.5;\n\
    areamap Ldd;\ntimer 1 2 1;\ninitial\n\
    Infil = lookupscalar(InfilTbl, Soil);\n\
    Total = 0;\ndynamic\n\
    Rain = timeinputscalar(RainTSS, RainZone) * Factor;\n\
    report Runoff = accuthresholdflux(Ldd, Rain, Infil);\n\
    Total = Total + maptotal(Rain);\n\
    report OutTSS = timeoutput(RainZone, Total);\n";

/// Its files.
pub const RUNOFF_FILES: &[File] = &[
    ("rain.tss", "rain\n2\ntimestep\nzone 1\n1 4\n2 2\n"),
    ("zone.asc", "1 1 1"),
    ("soil.asc", "1 2 1"),
    ("infil.tbl", "1 0.5\n2 2\n"),
    ("ldd.asc", "6 6 5"),
];

/// What it puts, in order.
pub const RUNOFF_PUTS: &[File] = &[
    ("q0000000.001", "1.5 1.5 3"),
    ("q0000000.002", "0.5 0 0.5"),
    ("out.tss", "timeseries scalar\n2\ntimestep\n1\n1 6\n2 9\n"),
];

/// The text of a file, with these lines in the head of a row.
pub(crate) fn text_of(alloc: Global, head: &str, text: &str) -> Result<String, Fail> {
    if text.contains("\n") {
        return Ok(String::from_str(alloc, text)?);
    }
    let cols = text.split_whitespace().count();
    Ok(format!(in alloc; "ncols {cols}\nnrows 1\n{head}{text}\n")?)
}

/// A folder that holds this script and these files, one of whose calls is to fail; none where the number is 0.
pub(crate) fn folder_with(
    alloc: Global,
    script: &str,
    files: &[File],
    call: u64,
) -> Result<MemFolder, Fail> {
    let mut folder = MemFolder::new(alloc);
    folder.hold(alloc, b"m.mod", script.as_bytes())?;
    for (name, text) in files {
        let text = text_of(alloc, INPUT, text)?;
        folder.hold(alloc, name.as_bytes(), text.as_bytes())?;
    }
    folder.fail_on(vec![in alloc; call]?);
    Ok(folder)
}
