//! Where the blocks of files go: from a place on, each so many sectors behind the one before, round the track, and on to the next.
use crate::calls::name_text;
use crate::changing::place;
use cbm_bam::SectorSet;
use cbm_medium::{Address, sectors_of};
use cbm_place::{Room, room_of};
use cbm_shell::ShellFault;
use cbm_shell::texts::Charset;
use cbm_volume::Entry;
use std::alloc::{AllocError, Global};

/// The directory's track, which no file's block is laid on.
const DIRECTORY: u8 = 18;

/// Where the next block is looked for.
#[derive(Clone, Copy)]
pub struct Head {
    /// The track, from 1 on.
    pub track: u8,
    /// The sector.
    pub sector: u8,
    /// How many sectors lie between the begin of one block and that of the next.
    pub interleave: u8,
}

impl Head {
    /// Where a block is looked for that follows one.
    fn after(self, at: Address) -> Head {
        Head {
            track: at.track(),
            sector: at.sector().saturating_add(self.interleave) % sectors_of(at.track()),
            interleave: self.interleave,
        }
    }
}

/// The first sector of a track that isn't taken, from one on, round the track.
fn first_on(taken: &SectorSet, track: u8, from: u8) -> Option<Address> {
    let count = sectors_of(track);
    for step in 0..count {
        let at = Address::new(track, from.saturating_add(step) % count)?;
        if !taken.has(at) {
            return Some(at);
        }
    }
    None
}

/// The first sector that isn't taken: on the track of the head, else on one behind it, from its sector 0.
fn first_from(room: &Room, head: Head) -> Option<Address> {
    if head.track <= room.tracks
        && let Some(at) = first_on(&room.taken, head.track, head.sector)
    {
        return Some(at);
    }
    for track in head.track..room.tracks {
        let next = track + 1;
        if next != DIRECTORY
            && let Some(at) = first_on(&room.taken, next, 0)
        {
            return Some(at);
        }
    }
    None
}

/// The places of a file's blocks, which are taken then, and the head after them; None if there aren't as many.
fn planned(
    alloc: Global,
    room: &mut Room,
    head: Head,
) -> Result<Option<(Vec<Address>, Head)>, AllocError> {
    let mut places = Vec::new(alloc);
    let mut head = head;
    for _ in 0..room.blocks.len() {
        let Some(at) = first_from(room, head) else {
            return Ok(None);
        };
        places.push(at).map_err(AllocError::from)?;
        room.taken.insert(at);
        head = head.after(at);
    }
    Ok(Some((places, head)))
}

/// An image with a file that was laid elsewhere.
#[derive(Drop)]
pub struct Laid {
    /// The image.
    pub image: Vec<u8>,
    /// Where the file's blocks lie, in order.
    pub places: Vec<Address>,
    /// Where the next file's are looked for.
    pub head: Head,
}

/// Lays the file in a slot of an image from a place on; None if too few sectors are free there. Errors: `Image`, `Unsound`, `NotFound`,
/// `NotClosed`, `Mistaken` for a relative file, `Trouble`, `Memory`.
pub fn lay(alloc: Global, image: &[u8], slot: u8, head: Head) -> Result<Option<Laid>, ShellFault> {
    let mut room = room_of(alloc, image, slot)?;
    let Some((places, head)) = planned(alloc, &mut room, head)? else {
        return Ok(None);
    };
    let image = place(alloc, image, slot, places.as_slice())?;
    Ok(Some(Laid {
        image,
        places,
        head,
    }))
}

/// Adds a place, as `17/4`.
fn add_place(text: &mut Vec<u8>, alloc: Global, at: Address) -> Result<(), AllocError> {
    let place = format!(in alloc; " {}/{}", at.track(), at.sector())?;
    text.extend_from_slice(place.as_bytes())
}

/// Adds the line of a file: its name, and where its blocks lie. The one error is want of memory.
pub fn add_places(
    text: &mut Vec<u8>,
    alloc: Global,
    charset: Charset,
    entry: &Entry,
    places: &[Address],
) -> Result<(), AllocError> {
    let name = name_text(alloc, charset, entry.name())?;
    text.extend_from_slice(b"\"")?;
    text.extend_from_slice(name.as_str().as_bytes())?;
    text.extend_from_slice(b"\":")?;
    for at in places {
        add_place(text, alloc, *at)?;
    }
    text.extend_from_slice(b"\n")
}
