//! The files of the tests: maps of four rows of five cells.

use outside_io::MemFolder;
use std::alloc::Global;
use std::test::Fail;

/// What each script begins with.
pub const HEAD: &str =
    "binding A = a.asc; Z = z.asc : nominal; Y = y.asc : nominal; L = l.asc : ldd; O = o.asc; T = t.asc; areamap A; ";

/// The names of the maps, and their rows: numbers, one of them missing; classes, of which 1 is in most tiles and 9 in one cell
/// alone; other classes; a drain map; large numbers at the end of the first row and the begin of the second; one at the last place.
const MAPS: [(&str, &str); 6] = [
    (
        "a.asc",
        "1 2 3 4 5\n6 -9999 8 9 10\n11 12 13 14 15\n16 17 18 19 20\n",
    ),
    ("z.asc", "1 1 2 2 3\n1 1 2 2 3\n4 1 1 2 3\n4 4 1 1 9\n"),
    ("y.asc", "1 2 1 2 1\n7 7 2 1 1\n7 -9999 3 3 1\n1 2 2 3 5\n"),
    ("l.asc", "2 2 2 1 2\n2 3 2 2 2\n2 2 2 2 2\n6 6 6 6 5\n"),
    (
        "o.asc",
        "1 1 1 1 9000000000000\n9000000000000 1 1 1 1\n1 1 1 1 1\n1 1 1 1 1\n",
    ),
    (
        "t.asc",
        "1 1 1 1 1\n1 1 1 1 1\n1 1 1 1 1\n1 1 1 1 9000000000000\n",
    ),
];

/// A folder with the maps and a script of this first line and these statements.
pub(crate) fn folder_of(alloc: Global, first: &str, statements: &str) -> Result<MemFolder, Fail> {
    let mut folder = MemFolder::new(alloc);
    let script = format!(in alloc; "{first}{HEAD}{statements}")?;
    folder.hold(alloc, b"m.mod", script.as_bytes())?;
    for (name, rows) in MAPS {
        let text = format!(in alloc;
            "ncols 5\nnrows 4\nxllcorner 0\nyllcorner 0\ncellsize 1\n{rows}"
        )?;
        folder.hold(alloc, name.as_bytes(), text.as_bytes())?;
    }
    Ok(folder)
}
