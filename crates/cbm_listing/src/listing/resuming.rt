// A listing taken apart, and made again of its parts.

use crate::listing::{LONGEST, Listing};
use arrayvec::ArrayVec;

impl Listing {
    ghost use Rattle.std.specs.Prelude.{◌≡◌, ◌≤◌, length, SomeIff};

    /// Its bytes, those that were taken too.
    pub fn bytes(&self) -> &[u8]
        ensures value { result.now ≡ self.now.bytes }
        ensures few { length self.now.bytes ≤ 4672 }
    {
        self.bytes.as_slice()
    }

    /// How many of its bytes were taken.
    pub fn taken(&self) -> u16
        ensures value { result ≡ self.now.taken }
        ensures within { self.now.taken ≤ length self.now.bytes }
    {
        self.place as u16
    }

    /// The listing of these bytes, of which so many were taken; None if there are more than 4,672, or fewer than were taken.
    pub fn resumed(bytes: &[u8], taken: u16) -> Option<Listing>
        ensures { SomeIff result ((length bytes.now ≤ 4672) × (taken ≤ length bytes.now))
            (record { bytes = bytes.now; taken = taken }) }
    {
        let place = taken as usize;
        if bytes.len() > LONGEST || place > bytes.len() {
            return None;
        }
        let mut all = ArrayVec::new();
        all.try_extend_from_slice(bytes).unwrap();
        Some(Listing { bytes: all, place })
    }
}
