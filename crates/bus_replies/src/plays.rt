//! What a host talks with.

use cbm_iec::{Change, Event};

/// A bus under a host that changes its lines one at a time.
pub trait Plays {
    ghost use Rattle.std.specs.Prelude.{◌≡◌, ◌+◌, ◌-◌, ◌^◌, ◌<◌, ◌≤◌, ◌∷◌, ◌++◌, [], ℕ, List, Option, Some, None, IfSome, IsSome, MatchOption};
    ghost use Rattle.cbm_iec.specs.declared.event.Event.{Event};
    ghost use Rattle.cbm_iec.specs.declared.lines.Change.{Change};
    ghost use Rattle.bus_replies.specs.Plays.{IsOfDrive, IsTurnOfReply, IsFromHost};

    /// What the bus may have stood for before the first event.
    ghost Start: { Type 0 };
    /// From this start these events were given, and the bus stands so.
    ghost gave: { Self → Start → List Event → Type 0 };
    /// The change of the host that waits for its turn.
    ghost waiting: { Self → Option Change };
    /// The first moment at which the host may change a line, in microseconds.
    ghost from: { Self → ℕ };
    /// How many changes of the drives may come before a limit at most, if the host changes nothing more.
    ghost most: { ℕ → Self → ℕ };
    /// When the next reaction is due, in microseconds, if the host changes nothing more; None if no drive's is.
    ghost due: { Self → Option ℕ → Type 0 };

    /// Takes the host's next change; `next` gives it in its turn.
    fn offer(&mut self, change: Change)
        requires none { waiting self.old ≡ None }
        requires from { from self.old ≤ change.moment }
        requires moment { change.moment < 2 ^ 59 }
        ensures waiting { waiting self.new ≡ Some change }
        ensures gave { (s : Start) (es : List Event) → gave self.old s es → gave self.new s es };

    /// The next event at a moment or before it: the reactions before the change that waits, and that change.
    fn next(&mut self, upto: u64) -> Option<Event>
        requires { upto < 2 ^ 59 - 1 }
        ensures given { (s : Start) (es : List Event) → gave self.old s es →
            MatchOption result (gave self.new s es) (λ e. gave self.new s (es ++ e ∷ [])) }
        ensures turn { IfSome result (λ e. IsTurnOfReply e.who e.change (waiting self.old) (waiting self.new)) }
        ensures comes { IfSome (waiting self.old) (λ c. c.moment ≤ upto → IsSome result) }
        ensures from { IfSome result (λ e. IsFromHost e.who e.change.moment (from self.new)) }
        ensures fewer { IfSome result (λ e. IsOfDrive e.who → (limit : ℕ) → upto < limit →
            most limit self.new < most limit self.old) };

    /// The next event at a moment or before it, if no change waits; None if nothing is left to come up to it.
    fn finish(&mut self, upto: u64) -> Option<Event>
        requires none { waiting self.old ≡ None }
        requires from { from self.old ≤ upto + 1 }
        requires upto { upto < 2 ^ 59 - 1 }
        ensures given { (s : Start) (es : List Event) → gave self.old s es →
            MatchOption result (gave self.new s es) (λ e. gave self.new s (es ++ e ∷ [])) }
        ensures drive { IfSome result (λ e. IsOfDrive e.who) }
        ensures waiting { waiting self.new ≡ None }
        ensures from { from self.new ≤ upto + 1 }
        ensures fewer { IfSome result (λ e. (limit : ℕ) → upto < limit → most limit self.new < most limit self.old) };

    /// When the next reaction is due, in microseconds, if one is.
    fn next_due(&self) -> Option<u64>
        ensures { due self.now result };
}
