ghost use Rattle.std.specs.Prelude.{◌≡◌, slice_range};

use std::ops::Range;

/// Where the title and the mark stand in 18/0.
const TITLE: Range<usize> = 144..160;

const MARK: Range<usize> = 162..167;

/// What 18/0 says of the disk: its title, and the five bytes of the id and the kind of DOS, padded with $A0
/// (Inside Commodore DOS).
#[derive(Clone, Copy, Debug, PartialEq, Eq)]
pub struct Label {
    /// Bytes 144 to 159.
    pub title: [u8; 16],
    /// Bytes 162 to 166.
    pub mark: [u8; 5],
}

impl Label {
    /// The label in the bytes of 18/0.
    pub fn of(map: &[u8; 256]) -> Label
        ensures title { result.title ≡ slice_range map.now 144 160 }
        ensures mark { result.mark ≡ slice_range map.now 162 167 }
    {
        let mut title = [0; 16];
        title.copy_from_slice(&map[TITLE]);
        let mut mark = [0; 5];
        mark.copy_from_slice(&map[MARK]);
        Label { title, mark }
    }
}
