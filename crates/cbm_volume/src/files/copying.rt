// COPY: the bytes of closed files, one after another, are a new file.

ghost use Rattle.std.specs.Prelude.{◌≡◌, ◌≢◌, ◌≤◌, ◌||◌, length, min, not, nat_lt, true, false, IsOk, OnOk, IfOk, IfErr, IsOkAnd};
ghost use Rattle.cbm_medium.specs.Place.{directory_head};
ghost use Rattle.cbm_medium.specs.Seen.{ShowsGround, OnlyContent};
ghost use Rattle.cbm_file.specs.Files.{file_at, blocks_of};
ghost use Rattle.cbm_file.specs.Changes.{slot_bytes, joined};
ghost use Rattle.cbm_chain.specs.Reading.{IsSettled};
ghost use Rattle.cbm_volume.specs.Copies.{AreCopied, CanBeCopied, HasNoRoomFor};
ghost use Rattle.cbm_volume.specs.Copying.{CopiesFiles, MakesCopy, BeginsCopy, CopiesByte, CopiesNext, CopiesRest, CopiesOf, EntersCopy, BeginsCopyLed, PutsSome, EntersCopyLed, CopyLed};
ghost use Rattle.cbm_volume.specs.SeenDisks.{seen_tracks};
ghost use Rattle.cbm_volume.specs.Calls.{OnlyOnDisk, OfDisk, KeepsProtected, IsSameOn};

use crate::disk::Room;
use crate::volume::Volume;
use cbm_chain::{ChainReader, ChainWriter, byte_count};
use cbm_directory::{Entry, empty_slot, put_slot, slot};
use cbm_file::FileType;
use cbm_medium::codes::{ENDLESS_CHAIN, WRITE_PROTECT_ON};
use cbm_medium::{Medium, Trouble};

impl<M: Medium> Volume<M> {
    /// COPY: the bytes of the closed files in these slots, one after another, are a new closed file. False if too
    /// few blocks are free, or there is no place for a name: nothing has changed then. The blocks are claimed and
    /// written first, and last the entry, closed, in one write; so an `Err` leaves each slot as it was, with blocks
    /// that are nobody's until VALIDATE. On a sound disk it says that the medium is protected (26), with nothing
    /// changed, or failed by itself.
    pub fn copy(&mut self, kind: FileType, name: &[u8], sources: &[u8]) -> Result<bool, Trouble>
        requires { length name.now ≤ 16 }
        ensures call { CopiesFiles result (M.seen self.old) (M.seen self.new) kind name.now sources.now }
        // Too little room is reported first, also on a protected medium.
        ensures full { OfDisk (M.seen self.old) (λ d uses. AreCopied d sources.now → HasNoRoomFor d sources.now →
            IsOkAnd result (λ done. done ≡ false)) }
        ensures read { OnOk result (IsOk ((M.seen self.old).content directory_head)) }
        ensures led { IfOk result (λ done. done ≡ true → CopyLed (M.seen self.old) (M.seen self.new) kind name.now) }
        ensures kept { IsSameOn result false (M.seen self.old) (M.seen self.new) }
        ensures guarded { KeepsProtected (M.seen self.old) (M.seen self.new) }
        ensures only { OnlyOnDisk result (M.seen self.old) (M.seen self.new) }
    {
        let bytes = byte_total(&self.medium, sources)?;
        let room = self.room()?;
        if !has_room(room, bytes) {
            return Ok(false);
        }
        if self.medium.protected() {
            return Err(Trouble {
                code: WRITE_PROTECT_ON,
                track: 0,
                sector: 0,
            });
        }
        make(&mut self.medium, kind, name, sources)?;
        Ok(true)
    }
}

/// Whether there is room for a file of this many bytes, and for its name.
fn has_room(room: Room, bytes: u32) -> bool
    ensures enough { result ≡ true → (blocks_of bytes ≤ room.blocks) × (room.slot ≡ true) × (room.blocks ≤ 65535) }
    ensures none { result ≡ false → (nat_lt room.blocks (blocks_of bytes) || not room.slot) ≡ true }
{
    let blocks = ((bytes as u64 + 253) / 254).max(1);
    room.slot && blocks <= room.blocks as u64
}

/// How many bytes the file in a slot has.
fn bytes_of<M: Medium>(medium: &M, number: u8) -> Result<u32, Trouble>
    ensures count { OfDisk (M.seen medium.now) (λ d uses. CanBeCopied d number →
        IsOkAnd result (λ n. n ≡ length (slot_bytes (file_at d number)))) }
    ensures never_26 { IfErr result (λ t. t.code ≢ 26) }
    ensures shown { IfErr result (ShowsGround (M.seen medium.now)) }
{
    let geometry = cbm_bam::geometry(medium);
    let Some(entry) = slot(medium, geometry, number)? else {
        return Ok(0);
    };
    byte_count(medium, geometry, entry.first_block())
}

/// How many bytes the files in these slots have, or the greatest number that there is for it.
fn byte_total<M: Medium>(medium: &M, sources: &[u8]) -> Result<u32, Trouble>
    ensures total { OfDisk (M.seen medium.now) (λ d uses. AreCopied d sources.now →
        IsOkAnd result (λ n. n ≡ min (length (joined d sources.now)) 4294967295)) }
    ensures never_26 { IfErr result (λ t. t.code ≢ 26) }
    ensures shown { IfErr result (ShowsGround (M.seen medium.now)) }
{
    let mut total: u32 = 0;
    'sources: for number in sources {
        let bytes = bytes_of(medium, *number)?;
        total = total.saturating_add(bytes);
    }
    Ok(total)
}

/// The map says less than it counted before.
fn miscounted() -> Trouble
    ensures { result ≡ (record { code = 71; track = 18; sector = 0 }) }
{
    Trouble {
        code: ENDLESS_CHAIN,
        track: 18,
        sector: 0,
    }
}

/// Makes the copy, for which there is room: its slot is found, its blocks are written, its entry is written.
fn make<M: Medium>(
    medium: &mut M,
    kind: FileType,
    name: &[u8],
    sources: &[u8],
) -> Result<(), Trouble>
    requires { length name.now ≤ 16 }
    ensures made { MakesCopy result (M.seen medium.old) (M.seen medium.new) kind name.now sources.now }
    ensures led { OnOk result (CopyLed (M.seen medium.old) (M.seen medium.new) kind name.now) }
    ensures only { OnlyOnDisk result (M.seen medium.old) (M.seen medium.new) }
{
    let (number, mut chain) = begin(medium)?;
    put_files(medium, &mut chain, sources)?;
    enter(medium, &chain, kind, name, number)
}

/// Finds an empty slot, for which the directory may grow, and claims a first block.
fn begin<M: Medium>(medium: &mut M) -> Result<(u8, ChainWriter), Trouble>
    ensures begun { BeginsCopy result (M.seen medium.old) (M.seen medium.new) }
    ensures led { let old = M.seen medium.old in
        IfOk result (BeginsCopyLed (seen_tracks old) old.content (M.seen medium.new).content) }
    ensures tracks { IfOk result (λ r. (r.1.tracks ≡ seen_tracks (M.seen medium.old)) × (r.1.tracks ≤ (M.seen medium.old).tracks)) }
    ensures only { OnlyOnDisk result (M.seen medium.old) (M.seen medium.new) }
{
    let geometry = cbm_bam::geometry(medium);
    let Some(number) = empty_slot(medium, geometry)? else {
        return Err(miscounted());
    };
    let Some(chain) = ChainWriter::begin(medium, geometry)? else {
        return Err(miscounted());
    };
    Ok((number, chain))
}

/// Puts a byte into the copy.
fn put_byte<M: Medium>(medium: &mut M, chain: &mut ChainWriter, byte: u8) -> Result<(), Trouble>
    requires { chain.old.tracks ≤ (M.seen medium.old).tracks }
    ensures put { CopiesByte result (M.seen medium.old) (M.seen medium.new) chain.old chain.new byte }
    ensures led { OnOk result (PutsSome (M.seen medium.old).content (M.seen medium.new).content chain.old chain.new) }
    ensures tracks { chain.new.tracks ≡ chain.old.tracks }
    ensures only { OnlyContent chain.old.tracks result (M.seen medium.old) (M.seen medium.new) }
{
    // Each sector that reads has 256 bytes: so it is known when a block is full.
    let _tracks = medium.tracks();
    let done = chain.put(medium, byte)?;
    if !done {
        return Err(miscounted());
    }
    Ok(())
}

/// Puts the byte that waits, and reads on.
fn put_next<M: Medium>(
    medium: &mut M,
    chain: &mut ChainWriter,
    reader: &mut ChainReader,
) -> Result<(), Trouble>
    requires chain { chain.old.tracks ≤ (M.seen medium.old).tracks }
    requires reader { reader.old.tracks ≤ (M.seen medium.old).tracks }
    ensures put { CopiesNext result (M.seen medium.old) (M.seen medium.new) chain.old chain.new reader.old reader.new }
    ensures led { OnOk result (PutsSome (M.seen medium.old).content (M.seen medium.new).content chain.old chain.new) }
    ensures settled { IsSettled reader.old → IsSettled reader.new }
    ensures tracks { (chain.new.tracks ≡ chain.old.tracks) × (reader.new.tracks ≡ reader.old.tracks) }
    ensures only { OnlyContent chain.old.tracks result (M.seen medium.old) (M.seen medium.new) }
{
    let Some((byte, _)) = reader.peek() else {
        return Ok(());
    };
    put_byte(medium, chain, byte)?;
    reader.taken(medium)
}

/// Puts this many bytes as a reader gives.
fn put_read<M: Medium>(
    medium: &mut M,
    chain: &mut ChainWriter,
    reader: &mut ChainReader,
    count: u32,
) -> Result<(), Trouble>
    requires chain { chain.old.tracks ≤ (M.seen medium.old).tracks }
    requires reader { reader.old.tracks ≤ (M.seen medium.old).tracks }
    ensures put { CopiesRest result (M.seen medium.old) (M.seen medium.new) chain.old chain.new reader.old count }
    ensures led { OnOk result (PutsSome (M.seen medium.old).content (M.seen medium.new).content chain.old chain.new) }
    ensures tracks { chain.new.tracks ≡ chain.old.tracks }
    ensures only { OnlyContent chain.old.tracks result (M.seen medium.old) (M.seen medium.new) }
{
    for passed in 0..count {
        put_next(medium, chain, reader)?;
    }
    Ok(())
}

/// Puts the bytes of the file in a slot.
fn put_file<M: Medium>(medium: &mut M, chain: &mut ChainWriter, number: u8) -> Result<(), Trouble>
    requires { chain.old.tracks ≤ (M.seen medium.old).tracks }
    ensures put { CopiesOf result (M.seen medium.old) (M.seen medium.new) chain.old chain.new
        (λ d. CanBeCopied d number) (λ d. slot_bytes (file_at d number)) }
    ensures led { OnOk result (PutsSome (M.seen medium.old).content (M.seen medium.new).content chain.old chain.new) }
    ensures tracks { chain.new.tracks ≡ chain.old.tracks }
    ensures only { OnlyContent chain.old.tracks result (M.seen medium.old) (M.seen medium.new) }
{
    let geometry = cbm_bam::geometry(medium);
    let Some(entry) = slot(medium, geometry, number)? else {
        return Ok(());
    };
    let count = byte_count(medium, geometry, entry.first_block())?;
    let mut reader = ChainReader::open(medium, geometry, entry.first_block())?;
    put_read(medium, chain, &mut reader, count)
}

/// Puts the bytes of the files in these slots.
fn put_files<M: Medium>(
    medium: &mut M,
    chain: &mut ChainWriter,
    sources: &[u8],
) -> Result<(), Trouble>
    requires { chain.old.tracks ≤ (M.seen medium.old).tracks }
    ensures put { CopiesOf result (M.seen medium.old) (M.seen medium.new) chain.old chain.new
        (λ d. AreCopied d sources.now) (λ d. joined d sources.now) }
    ensures led { OnOk result (PutsSome (M.seen medium.old).content (M.seen medium.new).content chain.old chain.new) }
    ensures tracks { chain.new.tracks ≡ chain.old.tracks }
    ensures only { OnlyContent chain.old.tracks result (M.seen medium.old) (M.seen medium.new) }
{
    'sources: for number in sources {
        put_file(medium, chain, *number)?;
    }
    Ok(())
}

/// Writes the last block, and then the closed entry.
fn enter<M: Medium>(
    medium: &mut M,
    chain: &ChainWriter,
    kind: FileType,
    name: &[u8],
    number: u8,
) -> Result<(), Trouble>
    requires chain { chain.now.tracks ≤ (M.seen medium.old).tracks }
    requires name { length name.now ≤ 16 }
    ensures entered { EntersCopy result (M.seen medium.old) (M.seen medium.new) chain.now kind name.now number }
    ensures led { OnOk result (EntersCopyLed (M.seen medium.old).content (M.seen medium.new).content chain.now kind name.now
        number) }
    ensures only { OnlyContent chain.now.tracks result (M.seen medium.old) (M.seen medium.new) }
{
    chain.finish(medium)?;
    let geometry = chain.geometry();
    let entry = Entry::fresh(kind, name, chain.first_block());
    let closed = entry.closed(chain.first_block(), chain.count());
    put_slot(medium, geometry, number, &closed)
}
