//! Where a recipe lays its files.
use super::bench::Next;
use cbm_medium::Address;
use disk_basics::placing::{Head, lay};
use disk_basics::{Failure, What, WordFault, on_disk};
use disk_recipes::{Recipe, RecipeLine};
use std::alloc::Global;

/// How far apart blocks are laid, if that isn't said.
const INTERLEAVE: u8 = 10;

/// The directory's track.
const DIRECTORY: u8 = 18;

/// What is said of where blocks lie, for the disk or for one file.
#[derive(Clone, Copy)]
struct Wish {
    interleave: Option<u8>,
    track: Option<u8>,
    sector: Option<u8>,
}

impl Wish {
    /// That of a recipe.
    fn of_disk(recipe: &Recipe) -> Wish {
        Wish {
            interleave: recipe.interleave,
            track: recipe.track,
            sector: recipe.sector,
        }
    }

    /// That of a line.
    fn of_line(line: &RecipeLine) -> Wish {
        Wish {
            interleave: line.interleave,
            track: line.track,
            sector: line.sector,
        }
    }

    /// Whether anything is said.
    fn is_any(self) -> bool {
        self.interleave.is_some() || self.track.is_some() || self.sector.is_some()
    }

    /// Where the next block is looked for, after this head.
    fn head(self, old: Head, interleave: u8) -> Head {
        let (track, sector) = match self.track {
            Some(track) => (track, self.sector.unwrap_or(0)),
            None => (old.track, self.sector.unwrap_or(old.sector)),
        };
        Head {
            track,
            sector,
            interleave: self.interleave.unwrap_or(interleave),
        }
    }
}

/// Where the files of a recipe are laid, one after another.
#[derive(Clone, Copy)]
pub struct Lane {
    /// Whether each file is laid, not only those of which something is said.
    lays_all: bool,
    /// How far apart the blocks of a file lie of which nothing else is said.
    interleave: u8,
    /// Where the next block is looked for.
    head: Head,
}

/// A head, if a disk has such a sector off the directory's track and the interleave is 1 to 20. The one error is `Word`.
fn checked(head: Head) -> Result<Head, Failure> {
    let is_sector = Address::new(head.track, head.sector).is_some();
    if is_sector && head.track != DIRECTORY && (1..=20).contains(&head.interleave) {
        return Ok(head);
    }
    Err(Failure::new(What::Word(WordFault::Laying)))
}

impl Lane {
    /// Where a recipe's first file is laid. The one error is `Word`, if no file can be laid there.
    pub fn of(recipe: &Recipe) -> Result<Lane, Failure> {
        let wish = Wish::of_disk(recipe);
        let begin = Head {
            track: 1,
            sector: 0,
            interleave: INTERLEAVE,
        };
        let head = checked(wish.head(begin, INTERLEAVE))?;
        Ok(Lane {
            lays_all: wish.is_any(),
            interleave: head.interleave,
            head,
        })
    }

    /// Whether the file of a line is laid by the recipe, not by the drive.
    fn lays(self, line: &RecipeLine, is_relative: bool) -> bool {
        Wish::of_line(line).is_any() || (self.lays_all && !is_relative)
    }

    /// The image whose file in the next slot is laid as its line says; None if the drive lays it. Errors: `Word`, if no file can be laid there;
    /// `RecordsPlace` for a relative file; `NoPlace`; `Disk`.
    pub fn laid(
        &mut self,
        alloc: Global,
        name: &str,
        image: &[u8],
        next: Next<'_>,
        is_relative: bool,
    ) -> Result<Option<Vec<u8>>, Failure> {
        if !self.lays(next.line, is_relative) {
            return Ok(None);
        }
        if is_relative {
            return Err(Failure::named(alloc, What::RecordsPlace, name));
        }
        let head = checked(Wish::of_line(next.line).head(self.head, self.interleave))?;
        let Some(laid) = on_disk(alloc, name, lay(alloc, image, next.slot, head))? else {
            return Err(Failure::named(alloc, What::NoPlace, name));
        };
        self.head = laid.head;
        Ok(Some(laid.image))
    }
}
