//! Laws of the definitions, each the contract of a function with nothing to do.

ghost use Rattle.std.specs.Prelude.{◌↔◌, ◌≤◌, ◌≡◌, ◌*◌, ◌-◌, ◌||◌, ℕ, Bool, List, length};
ghost use Rattle.cbm_medium.specs.Place.{Place};
ghost use Rattle.cbm_medium.specs.Content.{Content};
ghost use Rattle.cbm_medium.specs.Links.{Chain};
ghost use Rattle.cbm_file.specs.Files.{Disk};
ghost use Rattle.cbm_chain.specs.Data.{chain_bytes};
ghost use Rattle.cbm_relfile.specs.Records.{AllWhole};
ghost use Rattle.cbm_volume.specs.Layouts.{Layout, Sound, Means};
ghost use Rattle.cbm_volume.specs.Plain.{IsPlainlySound};
ghost use Rattle.cbm_volume.specs.Staying.{StaysInPlace};

/// A disk is sound with an owner for each sector exactly if the list of the sectors that it uses is distinct,
/// readable and not free, its counts are right, its directory lies on track 18 and its files off it.
pub fn is_sound_by_its_sectors()
    ensures { (tracks : ℕ) (c : Content) → 18 ≤ tracks → (((l : Layout) × Sound tracks c l) ↔ IsPlainlySound tracks c) }
{}

/// Each sound content means a disk.
pub fn sound_contents_mean_disks()
    ensures { (tracks : ℕ) (c : Content) → ((l : Layout) × Sound tracks c l) → (d : Disk) × Means tracks c d }
{}

/// A content means one disk at most: two that it means are equal.
pub fn contents_mean_one_disk()
    ensures { (tracks : ℕ) (c : Content) (d e : Disk) → Means tracks c d → Means tracks c e → d ≡ e }
{}

/// A chain of h blocks whose sectors are whole has 254 bytes in each but the last, and at most 254 in that.
pub fn blocks_bound_bytes()
    ensures { (tracks : ℕ) (c : Content) (a : Place) (blocks : List Place) → AllWhole c → Chain tracks c a blocks →
        (254 * (length blocks - 1) ≤ length (chain_bytes c blocks)) ×
        (length (chain_bytes c blocks) ≤ 254 * length blocks) }
{}

/// Closed files that stay in place over each of two calls stay in place over both, if the disk between is sound:
/// all but those that either call exempts.
pub fn files_stay_over_two_calls()
    ensures { (tracks between : ℕ) (c mid new : Content) (l : Layout) (first second : ℕ → Bool) →
        StaysInPlace tracks c mid first → Sound between mid l → StaysInPlace between mid new second →
        StaysInPlace tracks c new (λ m. first m || second m) }
{}
