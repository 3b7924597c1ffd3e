ghost use Rattle.std.specs.Prelude.{◌≤◌, vec_len};

/// A file that is read from a disk in memory.
#[derive(Drop)]
pub struct MemReader {
    bytes: Vec<u8>,
    at: usize,
    ghost within: { at ≤ vec_len bytes },
}

impl MemReader {
    ghost use Rattle.std.specs.Prelude.{◌≡◌, ◌<◌, length, take, Some};
    ghost use Rattle.std.specs.Io.KnownBytes.{Consumes, IsAtEnd};
    ghost use Rattle.outside_io.specs.MemDisk.{has_left};

    // A file of these bytes, none of which was read.
    pub(crate) fn new(bytes: Vec<u8>) -> MemReader
        ensures { has_left result ≡ Some bytes.items }
    {
        MemReader { bytes, at: 0 }
    }

    // Reads what comes next into the front of the room.
    pub(crate) fn next(&mut self, room: &mut [u8]) -> usize
        requires { 0 < length room.old }
        ensures count { result ≤ length room.new }
        ensures bytes { Consumes (has_left self.old) (has_left self.new) (take result room.new) }
        ensures end { result ≡ 0 → IsAtEnd (has_left self.new) }
    {
        let left = &self.bytes[self.at..];
        let count = room.len().min(left.len());
        room[..count].copy_from_slice(&left[..count]);
        self.at += count;
        count
    }
}
