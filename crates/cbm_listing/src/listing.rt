ghost use Rattle.std.specs.Prelude.{◌≡◌, ◌+◌, ◌≤◌, ◌++◌, ◌↔◌, IsTrue, length, drop, slice_get};
ghost use Rattle.cbm_listing.specs.Lines.{title_line, entry_line, last_line};
ghost use Rattle.cbm_listing.specs.Listed.{ListedBytes, with_listing_line, with_next_taken};

mod resuming;

use crate::entry::Entry;
use crate::line::{self, Line};
use arrayvec::ArrayVec;
use std::marker::Model;

/// The most bytes of a listing.
const LONGEST: usize = 4672;

/// A listing of at most 4,672 bytes, which are a line for the title, one for each of 144 slots, and one for the free
/// blocks. Its lines are made first, and then its bytes are taken.
#[derive(Drop)]
pub struct Listing {
    bytes: ArrayVec<u8, 4672>,
    place: usize,
}

impl Model for Listing {
    ghost Value = { ListedBytes };

    ghost view = { λ l. record { bytes = l.bytes.items; taken = l.place } };

    ghost invariant = { λ l. (length l.bytes.items ≤ 4672) × (l.place ≤ length l.bytes.items) };
}

impl Listing {
    /// The load address and the title's line, from the 16 bytes of the title and the 5 bytes of id and version.
    pub fn begin(title: &[u8; 16], mark: &[u8; 5]) -> Listing
        ensures value { result ≡ record { bytes = title_line title.now mark.now; taken = 0 } }
        ensures full { length result.bytes ≡ 32 }
    {
        let mut listing = Listing {
            bytes: ArrayVec::new(),
            place: 0,
        };
        listing.add(&line::title_line(title, mark));
        listing
    }

    fn add(&mut self, line: &Line)
        requires { length self.old.bytes + length line.now.items ≤ 4672 }
        ensures { self.new ≡ with_listing_line line.now.items self.old }
    {
        self.bytes.try_extend_from_slice(line.as_slice()).unwrap()
    }

    /// Whether a line more fits.
    pub fn has_room(&self) -> bool
        ensures { IsTrue result ↔ (length self.now.bytes ≤ 4640) }
    {
        self.bytes.len() <= LONGEST - 32
    }

    /// The line of a slot that isn't empty, 32 bytes.
    pub fn line(&mut self, entry: &Entry<'_>)
        requires room { length self.old.bytes ≤ 4640 }
        requires short { length entry.now.name.now ≤ 16 }
        ensures value { self.new ≡ with_listing_line
            (entry_line entry.now.blocks entry.now.name.now entry.now.kind entry.now.closed entry.now.locked) self.old }
        ensures longer { length self.new.bytes ≡ length self.old.bytes + 32 }
    {
        self.add(&line::entry_line(entry));
    }

    /// The line of the free blocks, 32 bytes.
    pub fn finish(&mut self, free: u16)
        requires { length self.old.bytes ≤ 4640 }
        ensures value { self.new ≡ with_listing_line (last_line free) self.old }
        ensures longer { length self.new.bytes ≡ length self.old.bytes + 32 }
    {
        self.add(&line::last_line(free));
    }

    /// Takes the next byte, if one is left.
    pub fn next_byte(&mut self) -> Option<u8>
        ensures byte { result ≡ slice_get self.old.bytes self.old.taken }
        ensures moved { self.new ≡ with_next_taken self.old }
    {
        let byte = self.bytes.as_slice().get(self.place).copied();
        if byte.is_some() {
            self.place += 1;
        }
        byte
    }

    /// The bytes that were not taken yet.
    pub fn left(&self) -> &[u8]
        ensures { result.now ≡ drop self.now.taken self.now.bytes }
    {
        &self.bytes.as_slice()[self.place..]
    }
}
