ghost use Rattle.std.specs.Prelude.{◌≡◌, ◌≤◌, ◌+◌, ◌++◌, length, IsOkAnd, IfErr};
ghost use Rattle.cbm_bam.specs.Map.{geometry_of};
ghost use Rattle.cbm_channel.specs.Grounds.{ShowsTrouble};
ghost use Rattle.cbm_file.specs.Files.{Disk};
ghost use Rattle.cbm_volume.specs.Holding.{HoldsDisk};
ghost use Rattle.cbm_machine.specs.Listings.{listing};
ghost use Rattle.cbm_channel.specs.Listing.{listing_line};

use crate::sought::Sought;
use cbm_command::Name;
use cbm_listing::Listing;
use cbm_volume::{Entry, Medium, Trouble, Volume, Wanted};

/// Adds the line of an entry that isn't empty and matches.
fn add_entry(listing: &mut Listing, pattern: &Name, entry: &Entry)
    requires { length listing.old.bytes ≤ 4640 }
    ensures bytes { listing.new.bytes ≡ listing.old.bytes ++ listing_line pattern.now entry.now }
    ensures taken { listing.new.taken ≡ listing.old.taken }
    ensures longer { length listing.new.bytes ≤ length listing.old.bytes + 32 }
{
    let any = Sought {
        pattern,
        kind: None,
    };
    if any.wants(entry) {
        listing.line(&cbm_listing::Entry {
            blocks: entry.blocks(),
            name: entry.name(),
            kind: entry.kind(),
            closed: entry.is_closed(),
            locked: entry.is_locked(),
        });
    }
}

/// The listing of the files that match a pattern. Errors: the fault of 18/0, or of the directory.
pub(crate) fn list<M: Medium>(volume: &Volume<M>, pattern: &Name) -> Result<Listing, Trouble>
    ensures shown { let now = M.seen volume.now in
        IfErr result (ShowsTrouble (geometry_of now.tracks now.content) now.content) }
    ensures whole { (d : Disk) → HoldsDisk (M.seen volume.now).tracks (M.seen volume.now).content d →
        IsOkAnd result (λ l. l ≡ (record { bytes = listing d pattern.now; taken = 0 })) }
{
    let label = volume.label()?;
    let free = volume.free()?;
    let mut listing = Listing::begin(&label.title, &label.mark);
    let mut slots = volume.slots();
    'slots: while let Some(entry) = volume.next_slot(&mut slots)? {
        add_entry(&mut listing, pattern, &entry);
    }
    listing.finish(free);
    Ok(listing)
}
