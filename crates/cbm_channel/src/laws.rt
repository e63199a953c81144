ghost use Rattle.std.specs.Prelude.{◌≡◌, ℕ, List, ◌++◌, Some};
ghost use Rattle.cbm_channel.specs.Saved.{saved_dos, MayBeKept};
ghost use Rattle.cbm_channel.specs.Loaded.{dos_at};
ghost use Rattle.cbm_channel.specs.Standing.{Kept};

/// A law: what a drive keeps beside its disk is read again from its bytes, whatever follows them, with the same medium.
pub fn what_is_kept_is_read_again<M>()
    ensures { (most : ℕ) (k : Kept M) (rest : List ℕ) → MayBeKept most k → dos_at k.medium most (saved_dos k ++ rest) ≡ Some (k, rest) }
{}
