//! What a value behind a turn means, and what may act on it.

ghost use Rattle.std.specs.Prelude.{◌≡◌, ℕ, List};
ghost use Rattle.turn_cell.specs.Histories.{Appends};

/// A value with a plan and a history.
pub trait Chronicle {
    /// What stays as it is, whoever acts.
    type Plan;

    /// What is noted of a turn.
    type Entry;

    ghost plan: { Self → Self.Plan };

    /// The entries, the oldest first.
    ghost history: { Self → List Self.Entry };

    ghost author: { Self.Entry → ℕ };
}

/// What one turn does.
pub trait Job<B: Chronicle> {
    type Answer;

    /// The author of the entry that it may append.
    ghost acts_as: { Self → ℕ };

    /// It can act on this value.
    ghost can_act: { Self → B → Type 0 };

    /// Acting on the first value, it gives this answer and leaves the second value.
    ghost gives: { Self → B → Self.Answer → B → Type 0 };

    /// Acts on the value. It keeps the plan, and appends at most one entry.
    fn act(self, value: &mut B) -> Self::Answer
        requires { can_act self value.old }
        ensures gives { gives self value.old result value.new }
        ensures plan { B.plan value.new ≡ B.plan value.old }
        ensures history { Appends B.author (acts_as self) (B.history value.old) (B.history value.new) };
}
