ghost use Rattle.std.specs.Prelude.{◌≡◌, ℕ, List, ◌++◌, Some};
ghost use Rattle.cbm_channel.specs.Standing.{Kept};
ghost use Rattle.cbm_drive.specs.Desks as desks;
ghost use Rattle.cbm_drive.specs.Seats.{Seated};
ghost use Rattle.cbm_drive.specs.Saved.{saved_seat, MaySit};
ghost use Rattle.cbm_drive.specs.Loaded.{seat_at};

/// A law: a drive that was saved beside its disk is read again from its bytes, whatever follows them, with the same medium.
pub fn a_saved_drive_is_read_again<M>()
    ensures { (most : ℕ) (s : Seated (desks.Desk (Kept M))) (rest : List ℕ) → MaySit most s →
        seat_at s.machine.dos.medium most (saved_seat s ++ rest) ≡ Some (s, rest) }
{}
