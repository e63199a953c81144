ghost use Rattle.std.specs.Prelude.{◌≡◌};

use crate::medium::Medium;

/// A medium that never fails by itself.
pub trait Steady: Medium {
    /// It has counted no failure.
    ghost steady: { (m : Self) → (Self.seen m).failures ≡ 0 };
}
