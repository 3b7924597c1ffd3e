//! Border edges in both orientations, and channels over them.

use crate::maps::{Drawn, drain_of, tiling_of};
use border_channel::{Channel, Message, border_edges};
use drain_meaning::{Flow, Orient};
use std::alloc::Global;
use std::test::Fail;

/// A source and a target.
type Ends = (u32, u32);

/// A drain map, the sides of its tiles, and its border edges down and up stream.
type Row = (Drawn, (u32, u32), &'static [Ends], &'static [Ends]);

static ROWS: [Row; 15] = [
    // One row, of which the last tile is smaller.
    (
        (1, 5, b"66665"),
        (1, 2),
        &[(1, 2), (3, 4)],
        &[(2, 1), (4, 3)],
    ),
    ((1, 4, b"5444"), (1, 3), &[(3, 2)], &[(2, 3)]),
    // One column.
    ((4, 1, b"2225"), (2, 1), &[(1, 2)], &[(2, 1)]),
    ((4, 1, b"5888"), (3, 1), &[(3, 2)], &[(2, 3)]),
    // One cell, and tiles larger than the map.
    ((1, 1, b"5"), (1, 1), &[], &[]),
    ((2, 4, b"66245444"), (3, 5), &[], &[]),
    ((3, 1, b"225"), (4096, 4096), &[], &[]),
    // Tiles that touch at a corner.
    ((2, 2, b"3555"), (1, 1), &[(0, 3)], &[(3, 0)]),
    ((2, 2, b"5155"), (1, 1), &[(1, 2)], &[(2, 1)]),
    ((2, 2, b"5595"), (1, 1), &[(2, 1)], &[(1, 2)]),
    ((2, 2, b"5557"), (1, 1), &[(3, 0)], &[(0, 3)]),
    // Missing codes, and a pit at a border.
    (
        (1, 6, b"65.665"),
        (1, 1),
        &[(0, 1), (3, 4), (4, 5)],
        &[(1, 0), (4, 3), (5, 4)],
    ),
    // Eight neighbours in tiles of their own.
    (
        (3, 3, b"321654987"),
        (1, 1),
        &[
            (0, 4),
            (1, 4),
            (2, 4),
            (3, 4),
            (5, 4),
            (6, 4),
            (7, 4),
            (8, 4),
        ],
        &[
            (4, 0),
            (4, 1),
            (4, 2),
            (4, 3),
            (4, 5),
            (4, 6),
            (4, 7),
            (4, 8),
        ],
    ),
    // The same in four tiles, of which one holds the pit.
    (
        (3, 3, b"321654987"),
        (2, 2),
        &[(2, 4), (5, 4), (6, 4), (7, 4), (8, 4)],
        &[(4, 2), (4, 5), (4, 6), (4, 7), (4, 8)],
    ),
    // Tiles of whole rows: a river that crosses them.
    ((2, 4, b"66245444"), (1, 4), &[(2, 6)], &[(6, 2)]),
];

// The ends of the border edges of a map.
fn ends_of(
    alloc: Global,
    map: Drawn,
    sides: (u32, u32),
    orient: Orient,
) -> Result<Vec<Ends>, Fail> {
    let drain = drain_of(alloc, map)?;
    let tiling = tiling_of(&drain, sides)?;
    let edges = border_edges(alloc, &drain, &tiling, orient)?;
    let mut ends = Vec::new(alloc);
    for edge in &edges {
        ends.push((edge.source, edge.target))?;
    }
    Ok(ends)
}

#[test]
fn border_edges_are_those_between_tiles(rt: HostRuntime) -> Result<(), Fail> {
    for (map, sides, down, up) in ROWS.iter() {
        let ends = ends_of(rt.alloc(), *map, *sides, Orient::Down)?;
        assert_eq!(rt; ends.as_slice(), *down, "down {map:?} {sides:?}");
        let ends = ends_of(rt.alloc(), *map, *sides, Orient::Up)?;
        assert_eq!(rt; ends.as_slice(), *up, "up {map:?} {sides:?}");
    }
    Ok(())
}

// A message over an edge.
fn over(edge: u32) -> Message {
    Message {
        edge,
        flow: Flow::Num(i128::from(edge)),
    }
}

// What is taken from a channel for three edges: two of them, then all.
fn taken(alloc: Global, first: u16) -> Result<Vec<Option<Message>>, Fail> {
    let first = u32::from(first);
    let mut channel = Channel::make(alloc, 3)?;
    let mut got = Vec::new(alloc);
    channel.put(over(first + 2));
    channel.put(over(first));
    got.push(channel.take())?;
    channel.put(over(first + 1));
    channel.put(over(first + 3));
    got.push(channel.take())?;
    got.push(channel.take())?;
    got.push(channel.take())?;
    got.push(channel.take())?;
    Ok(got)
}

#[test]
fn messages_come_first_in_first_out(rt: HostRuntime) -> Result<(), Fail> {
    let got = taken(rt.alloc(), 4)?;
    let wanted = [
        Some(over(6)),
        Some(over(4)),
        Some(over(5)),
        Some(over(7)),
        None,
    ];
    assert_eq!(rt; got.as_slice(), wanted.as_slice());
    Ok(())
}
