// A reader taken apart, and made again of its parts.

use crate::reader::ChainReader;
use arrayvec::ArrayVec;
use cbm_medium::{Geometry, Link};

/// The most bytes that may wait after the first one.
const MOST: usize = 256;

impl ChainReader {
    ghost use Rattle.std.specs.Prelude.{◌≡◌, SomeIff};
    ghost use Rattle.cbm_chain.specs.Resuming.{CanRead};

    /// How many sectors are left to its chain.
    pub fn sectors_left(&self) -> u16
        ensures { result ≡ self.now.left }
    {
        self.left
    }

    /// The bytes that it has read and not given.
    pub fn read_ahead(&self) -> ArrayVec<u8, 257>
        ensures value { result.items ≡ self.now.bytes }
        ensures again { CanRead self.now.bytes self.now.next }
    {
        let mut bytes = ArrayVec::new();
        if let Some(byte) = self.waiting {
            bytes.push(byte);
        }
        bytes
            .try_extend_from_slice(&self.sector[self.from..self.to])
            .unwrap();
        bytes
    }

    /// The reader of these parts; None if no reader has them.
    pub fn resumed(geometry: Geometry, bytes: &[u8], next: Link, left: u16) -> Option<ChainReader>
        ensures { SomeIff result (CanRead bytes.now next)
            (record { tracks = geometry; bytes = bytes.now; next = next; left = left }) }
    {
        let (waiting, rest) = match bytes.split_first() {
            Some((first, rest)) => (Some(*first), rest),
            None => (None, bytes),
        };
        if rest.len() > MOST || (rest.is_empty() && !next.is_end()) {
            return None;
        }
        let mut sector = [0; 256];
        sector[..rest.len()].copy_from_slice(rest);
        Some(ChainReader {
            geometry,
            waiting,
            sector,
            from: 0,
            to: rest.len(),
            next,
            left,
        })
    }
}
