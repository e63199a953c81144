//! What a program is, line by line.
ghost use Rattle.std.specs.Prelude.{◌≡◌, ◌∷◌, ℕ, List, true};
ghost use Rattle.cbm_basic.specs.Lines.{basic_listing, after_program};
ghost use Rattle.cbm_basic.specs.Links.{is_program};
ghost use Rattle.cbm_basic.specs.Programs.{BasicLine, AreBasicLines, kept_from, lines_shown};

/// A program that a C64 keeps from $0801 on is listed line by line, and is known as a program, whatever follows it. What does is all that
/// is said to follow.
pub fn programs_are_listed()
    ensures listed { (lines : List BasicLine) (more : List ℕ) → AreBasicLines 2049 lines →
        basic_listing (1 ∷ 8 ∷ kept_from 2049 lines more) ≡ lines_shown lines }
    ensures known { (lines : List BasicLine) (more : List ℕ) → AreBasicLines 2049 lines →
        is_program (1 ∷ 8 ∷ kept_from 2049 lines more) ≡ true }
    ensures followed { (lines : List BasicLine) (more : List ℕ) → AreBasicLines 2049 lines →
        after_program (1 ∷ 8 ∷ kept_from 2049 lines more) ≡ more }
{}
