ghost use Rattle.std.specs.Prelude.{◌≡◌, ℕ, List, ◌++◌, Some};
ghost use Rattle.cbm_saved.specs.Numbers.{eight_bytes, eight_at, two, pair_at};
ghost use Rattle.cbm_saved.specs.Texts.{counted_text, text_at};
ghost use Rattle.cbm_saved.specs.Seals.{seal_opened, sealed};

/// A law: a number or a text that was saved reads back, whatever follows it, and so does what is under a seal.
pub fn what_is_saved_reads_back()
    ensures two { (n : ℕ) (rest : List ℕ) → pair_at (two n ++ rest) ≡ Some (n, rest) }
    ensures eight { (n : ℕ) (rest : List ℕ) → eight_at (eight_bytes n ++ rest) ≡ Some (n, rest) }
    ensures text { (bytes : List ℕ) (rest : List ℕ) → text_at (counted_text bytes ++ rest) ≡ Some (bytes, rest) }
    ensures seal { (version : ℕ) (body : List ℕ) → seal_opened version (sealed version body) ≡ Some body }
{}
