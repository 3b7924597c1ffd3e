//! The channels of a board.

ghost use Rattle.std.specs.Prelude.{◌≡◌, ◌≢◌, ℕ, ◌<◌, ◌≤◌, [], length, IfOk, MatchOption, slice_index};
ghost use Rattle.core_model.specs.Graphs.{Each, In};
ghost use Rattle.task_board.specs.inside.Channels.{numbers_from, queue_at};

use border_channel::Channel;
use std::alloc::{AllocError, Global};

/// Empty channels, each with room for so many messages.
pub fn channels(alloc: Global, rooms: &[u32]) -> Result<Vec<Channel>, AllocError>
    ensures all { IfOk result (λ v. length v.items ≡ length rooms.now) }
    ensures empty { IfOk result (λ v. (c : ℕ) → c < length rooms.now → (queue_at v.items c).messages ≡ []) }
    ensures rooms { IfOk result (λ v. (c : ℕ) → c < length rooms.now → slice_index rooms.now c ≤ (queue_at v.items c).capacity) }
{
    let mut list = Vec::with_capacity(alloc, rooms.len())?;
    for room in rooms {
        let channel = Channel::make(alloc, (*room).max(1))?;
        list.push(channel)?;
    }
    Ok(list)
}

/// One of these channels in which a message waits, if there is one. They are told by their numbers from the first on.
pub fn waiting_channel(channels: &[Channel], first: u32, places: &[u32]) -> Option<usize>
    requires { Each (λ c. c < length channels.now) (numbers_from first places.now) }
    ensures { MatchOption result (Each (λ c. (queue_at channels.now c).messages ≡ []) (numbers_from first places.now)) (λ c. In c (numbers_from first places.now) × ((queue_at channels.now c).messages ≢ [])) }
{
    for place in places {
        let c = first as usize + *place as usize;
        if channels[c].len() > 0 {
            return Some(c);
        }
    }
    None
}
