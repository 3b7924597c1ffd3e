ghost use Rattle.std.specs.Prelude.{◌≡◌, length};
ghost use Rattle.drain_meaning.specs.Sound.{IsDrain};

use drain_meaning::Drain;

// How many cells a drain map has.
pub(crate) fn cell_number(drain: &Drain) -> u32
    ensures value { result ≡ length drain.now.codes }
    ensures sound { IsDrain drain.now }
{
    drain.cells().len() as u32
}
