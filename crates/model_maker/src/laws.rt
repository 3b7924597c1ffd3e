ghost use Rattle.model_maker.specs.Laws.{LeadToLaterCells, MadeDrainsAreSound};

/// A made drain map is sound, since each of its directions leads to a later cell.
pub fn made_drain_maps_are_sound()
    ensures later { LeadToLaterCells }
    ensures sound { MadeDrainsAreSound }
{}
