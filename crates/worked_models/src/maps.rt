//! Whole maps that several hold.

use cell_values::Cell::{Mv, Val};
use cell_values::Cells;
use map_meaning::Map;
use std::test::Fail;

#[test]
fn shares_a_map(rt: HostRuntime) -> Result<(), Fail> {
    let cells = Vec::from_slice(rt.alloc(), &[Val(1), Mv, Val(-3)])?;
    let map = Map::new(rt.alloc(), Cells::from_vec(cells))?;
    let twin = map.share()?;
    assert_eq!(rt; twin.cells(), [Val(1), Mv, Val(-3)].as_slice());
    drop(map);
    assert_eq!(rt; twin.cells(), [Val(1), Mv, Val(-3)].as_slice());
    Ok(())
}
