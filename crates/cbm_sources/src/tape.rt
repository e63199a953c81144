//! A tape archive.
ghost use Rattle.std.specs.Prelude.{◌≡◌, ◌<◌, ◌≤◌, ◌+◌, ◌-◌, ◌∷◌, ◌↔◌, ◌⊎◌, length, map, slice_index, IfOk, IfSome, IsSome, MatchResult, Some, Ok, Err};
ghost use Rattle.cbm_file.specs.Files.{blocks_of};
ghost use Rattle.cbm_sources.specs.Tapes.{IsTape, tape_record_count, used_records, offset_of, limit_after, size_in, tape_size, tape_entry, tape_entries, tape_told, tape_file};

use crate::fault::Fault;
use crate::record::Record;
use cbm_directory::Entry;
use cbm_file::FileType;
use cbm_medium::Link;
use std::alloc::{AllocError, Global};
use std::marker::Model;

/// The bytes before the first record.
const HEADER: usize = 64;

/// The bytes of a computer's memory.
const MEMORY: usize = 65_536;

/// The bytes of a file in a block of a disk.
const BLOCK: usize = 254;

/// A T64 archive, and its records of files.
#[derive(Drop)]
pub struct Tape<'a> {
    bytes: &'a [u8],
    records: Vec<Record>,
}

impl<'a> Model for Tape<'a> {
    ghost use Rattle.std.specs.Prelude.{◌≡◌, List, ℕ};
    ghost use Rattle.cbm_sources.specs.Tapes.{IsTape, used_records};

    ghost Value = { List ℕ };

    ghost view = { λ t. t.bytes.now };

    ghost invariant = { λ t. IsTape t.bytes.now × (t.records.items ≡ used_records t.bytes.now) };
}

/// How many records an archive has.
fn record_count(bytes: &[u8]) -> usize
    requires { 64 ≤ length bytes.now }
    ensures { result ≡ tape_record_count bytes.now }
{
    let most = bytes[34] as usize + 256 * bytes[35] as usize;
    let used = bytes[36] as usize + 256 * bytes[37] as usize;
    most.max(used).max(1).min((bytes.len() - HEADER) / 32)
}

/// The records of files.
fn used_records(alloc: Global, bytes: &[u8]) -> Result<Vec<Record>, AllocError>
    requires { 64 ≤ length bytes.now }
    ensures { IfOk result (λ v. v.items ≡ used_records bytes.now) }
{
    let mut records = Vec::new(alloc);
    for number in 0..record_count(bytes) {
        let record = Record::of(bytes, number);
        if record.is_used() {
            records.push(record).map_err(AllocError::from)?;
        }
    }
    Ok(records)
}

/// The first place after another where a file begins, or the end.
fn limit_after(from: usize, end: usize, records: &[Record]) -> usize
    ensures { result ≡ limit_after from end records.now }
{
    let mut limit = end;
    for record in records {
        let at = record.offset();
        if from < at && at < limit {
            limit = at;
        }
    }
    limit
}

/// How many bytes a file has: those between its addresses if they can be there, else all that can be there.
fn size_in(start: usize, stated: usize, room: usize) -> usize
    requires { start < 65536 }
    ensures { result ≡ size_in start stated room }
{
    if stated > 0 && stated <= room {
        stated
    } else {
        room.min(MEMORY - start)
    }
}

/// How many blocks of a disk a file of this many bytes takes.
fn blocks_of(bytes: usize) -> u16
    requires { bytes ≤ 65538 }
    ensures { result ≡ blocks_of bytes }
{
    ((bytes + BLOCK - 1) / BLOCK).max(1) as u16
}

/// A file as a disk has it: its start address comes first.
fn program(alloc: Global, record: &Record, bytes: &[u8]) -> Result<Vec<u8>, AllocError>
    ensures { IfOk result (λ v. v.items ≡ slice_index record.now 2 ∷ slice_index record.now 3 ∷ bytes.now) }
{
    let mut file = Vec::from_slice(alloc, &record.load_address())?;
    file.extend_from_slice(bytes)?;
    Ok(file)
}

impl<'a> Tape<'a> {
    /// The archive of these bytes, None if they are none. The one error is want of memory.
    pub fn of(alloc: Global, bytes: &'a [u8]) -> Result<Option<Tape<'a>>, AllocError>
        ensures some { IfOk result (λ o. IfSome o (λ t. t ≡ bytes.now)) }
        ensures is { IfOk result (λ o. IsSome o ↔ IsTape bytes.now) }
    {
        if bytes.len() >= HEADER && bytes.starts_with(b"C64") {
            let records = used_records(alloc, bytes)?;
            Ok(Some(Tape { bytes, records }))
        } else {
            Ok(None)
        }
    }

    /// How many bytes a record's file has.
    fn size(&self, records: &[Record], record: &Record) -> usize
        requires { records.now ≡ used_records self.now }
        ensures value { result ≡ tape_size self.now record.now }
        ensures small { result ≤ 65536 }
        ensures inside { result ≤ length self.now - offset_of record.now }
    {
        let from = record.offset();
        let room = limit_after(from, self.bytes.len(), records).saturating_sub(from);
        let start = record.start() as usize;
        let stated = (record.end() as usize).saturating_sub(start);
        size_in(start, stated, room)
    }

    /// The entry of a record.
    fn entry(&self, records: &[Record], record: &Record) -> Entry
        requires { records.now ≡ used_records self.now }
        ensures { result ≡ tape_entry self.now record.now }
    {
        let nowhere = Link::new(0, 0);
        let blocks = blocks_of(2 + self.size(records, record));
        Entry::fresh(FileType::Prg, record.name(), nowhere).closed(nowhere, blocks)
    }

    /// The entries of these records.
    fn entries_of(&self, alloc: Global, records: &[Record]) -> Result<Vec<Entry>, AllocError>
        requires { records.now ≡ used_records self.now }
        ensures { IfOk result (λ v. v.items ≡ map (tape_entry self.now) records.now) }
    {
        let mut entries = Vec::new(alloc);
        for record in records {
            entries
                .push(self.entry(records, record))
                .map_err(AllocError::from)?;
        }
        Ok(entries)
    }

    /// Its files' entries: programs, with the blocks that they take on a disk. The one error is want of memory.
    pub fn entries(&self, alloc: Global) -> Result<Vec<Entry>, AllocError>
        ensures { IfOk result (λ v. v.items ≡ tape_entries self.now) }
    {
        self.entries_of(alloc, self.records.as_slice())
    }

    /// The bytes of a record's file.
    fn bytes_of(&self, alloc: Global, records: &[Record], record: &Record) -> Result<Vec<u8>, Fault>
        requires { records.now ≡ used_records self.now }
        ensures { MatchResult result (λ v. tape_told self.now (Some record.now) ≡ Ok v.items)
            (λ fault. (fault ≡ Fault.Memory) ⊎ (tape_told self.now (Some record.now) ≡ Err fault)) }
    {
        let from = record.offset();
        if from >= self.bytes.len() {
            return Err(Fault::Cut(from));
        }
        let size = self.size(records, record);
        match program(alloc, record, &self.bytes[from..from + size]) {
            Ok(file) => Ok(file),
            Err(_) => Err(Fault::Memory),
        }
    }

    /// The bytes of the file of a number among these records.
    fn file_among(&self, alloc: Global, records: &[Record], number: usize) -> Result<Vec<u8>, Fault>
        requires { records.now ≡ used_records self.now }
        ensures { MatchResult result (λ v. tape_file self.now number ≡ Ok v.items)
            (λ fault. (fault ≡ Fault.Memory) ⊎ (tape_file self.now number ≡ Err fault)) }
    {
        match records.get(number) {
            Some(record) => self.bytes_of(alloc, records, record),
            None => Err(Fault::NoFile),
        }
    }

    /// The bytes of the file of a number, its start address first.
    pub fn file(&self, alloc: Global, number: usize) -> Result<Vec<u8>, Fault>
        ensures { MatchResult result (λ v. tape_file self.now number ≡ Ok v.items)
            (λ fault. (fault ≡ Fault.Memory) ⊎ (tape_file self.now number ≡ Err fault)) }
    {
        self.file_among(alloc, self.records.as_slice(), number)
    }
}
