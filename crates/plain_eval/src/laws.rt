//! What holds of the kits that runners are made with.

ghost use Rattle.flow_task.specs.Base.{is_base};
ghost use Rattle.flow_task.specs.Kits.{KnowsAll};
ghost use Rattle.map_meaning.specs.Table.{is_transport};

/// The kit of the first transports knows every transport that has a word.
pub fn the_base_kit_knows_all_words()
    ensures { KnowsAll is_transport is_base }
{}
