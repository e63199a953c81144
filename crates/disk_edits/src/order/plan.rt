//! What putting a disk in order does, step by step, and that in words.
use cbm_bam::SectorSet;
use cbm_medium::Address;
use cbm_shell::texts::Charset;
use cbm_shell::{ShellFault, geos_of};
use cbm_volume::Entry;
use disk_basics::border::border_place;
use disk_basics::calls::{entries, geos_blocks};
use disk_basics::rests::named;
use disk_basics::{Disk, add_sectors};
use disk_json::Named;
use std::alloc::{AllocError, Global};

/// What is told of a disk that was put in order.
#[derive(Drop)]
pub struct Telling {
    /// The blocks that the drive's VALIDATE gives back.
    pub freed: Vec<Address>,
    /// Nothing was changed.
    pub is_dry: bool,
    /// Those of GEOS stay taken.
    pub keeps_geos: bool,
}

impl Telling {
    /// The word for a block that is given back.
    fn frees(&self) -> &'static str {
        if self.is_dry { "would free" } else { "freed" }
    }

    /// The word for what becomes of a block of GEOS.
    fn keeps(&self) -> &'static str {
        match (self.keeps_geos, self.is_dry) {
            (true, true) => "would keep",
            (true, false) => "kept",
            (false, _) => self.frees(),
        }
    }

    /// The word for a file that goes.
    fn deletes(&self) -> &'static str {
        if self.is_dry {
            "would delete"
        } else {
            "deleted"
        }
    }
}

/// A step of putting a disk in order.
#[derive(Drop)]
pub enum Step {
    /// Blocks of a file of GEOS are given back, or stay taken.
    Geos(Named, Vec<Address>),
    /// A file that was never closed goes.
    Unclosed(Named),
    /// GEOS's border block is given back, or stays taken.
    Border(Address),
    /// Blocks that no file of the directory has are given back.
    Others(Vec<Address>),
}

/// What putting a disk in order does.
#[derive(Drop)]
pub struct Plan {
    /// Its steps.
    pub steps: Vec<Step>,
    // The blocks of GEOS among those that the drive's VALIDATE gives back.
    held: SectorSet,
}

impl Plan {
    /// Adds a step.
    fn add(&mut self, step: Step) -> Result<(), AllocError> {
        self.steps.push(step).map_err(AllocError::from)
    }

    /// Those of the blocks that a set has, which are GEOS's.
    fn hold(
        &mut self,
        alloc: Global,
        places: &[Address],
        held: &SectorSet,
    ) -> Result<Vec<Address>, AllocError> {
        let among = among(alloc, places, held, true)?;
        for at in among.as_slice() {
            self.held.insert(*at);
        }
        Ok(among)
    }

    /// Adds what becomes of the blocks of an entry's file, if GEOS made it.
    fn add_geos(
        &mut self,
        alloc: Global,
        image: &[u8],
        slot: usize,
        entry: &Entry,
        telling: &Telling,
    ) -> Result<(), ShellFault> {
        if geos_of(entry).is_none() {
            return Ok(());
        }
        let held = geos_blocks(alloc, image, entry)?;
        let places = self.hold(alloc, telling.freed.as_slice(), &held)?;
        if !places.is_empty() {
            let file = named(alloc, Charset::Upper, slot, entry)?;
            self.add(Step::Geos(file, places))?;
        }
        Ok(())
    }

    /// Adds what becomes of an entry's file.
    fn add_entry(
        &mut self,
        alloc: Global,
        image: &[u8],
        slot: usize,
        entry: &Entry,
        telling: &Telling,
    ) -> Result<(), ShellFault> {
        self.add_geos(alloc, image, slot, entry, telling)?;
        if !entry.is_empty() && !entry.is_closed() {
            let file = named(alloc, Charset::Upper, slot, entry)?;
            self.add(Step::Unclosed(file))?;
        }
        Ok(())
    }

    /// Adds what becomes of GEOS's border block.
    fn add_border(
        &mut self,
        alloc: Global,
        image: &[u8],
        telling: &Telling,
    ) -> Result<(), ShellFault> {
        let Some(at) = border_place(&Disk::open(alloc, image)?) else {
            return Ok(());
        };
        let mut border = SectorSet::new();
        border.insert(at);
        if !self
            .hold(alloc, telling.freed.as_slice(), &border)?
            .is_empty()
        {
            self.add(Step::Border(at))?;
        }
        Ok(())
    }

    /// Adds the blocks that no file of the directory has.
    fn add_others(&mut self, alloc: Global, telling: &Telling) -> Result<(), AllocError> {
        let others = among(alloc, telling.freed.as_slice(), &self.held, false)?;
        if others.is_empty() {
            return Ok(());
        }
        self.add(Step::Others(others))
    }

    /// The blocks that stay taken, if `is_kept`, else those that are given back. The one error is want of memory.
    pub fn places(
        &self,
        alloc: Global,
        telling: &Telling,
        is_kept: bool,
    ) -> Result<Vec<Address>, AllocError> {
        if telling.keeps_geos {
            return among(alloc, telling.freed.as_slice(), &self.held, is_kept);
        }
        if is_kept {
            return Ok(Vec::new(alloc));
        }
        Vec::from_slice(alloc, telling.freed.as_slice())
    }
}

/// Those of the places that a set has, or those that it hasn't.
fn among(
    alloc: Global,
    places: &[Address],
    set: &SectorSet,
    has: bool,
) -> Result<Vec<Address>, AllocError> {
    let mut found = Vec::new(alloc);
    for at in places {
        if set.has(*at) == has {
            found.push(*at).map_err(AllocError::from)?;
        }
    }
    Ok(found)
}

/// What putting a disk in order does: blocks that are given back, blocks of GEOS that stay taken, and files that were never closed,
/// which go. Errors: `Image`, `Trouble`, `Memory`.
pub fn plan_of(alloc: Global, image: &[u8], telling: &Telling) -> Result<Plan, ShellFault> {
    let mut plan = Plan {
        steps: Vec::new(alloc),
        held: SectorSet::new(),
    };
    let entries = entries(alloc, image)?;
    for (slot, entry) in entries.iter().enumerate() {
        plan.add_entry(alloc, image, slot, entry, telling)?;
    }
    plan.add_border(alloc, image, telling)?;
    plan.add_others(alloc, telling)?;
    Ok(plan)
}

/// Adds a word and sectors.
fn add_places(
    alloc: Global,
    text: &mut String,
    word: &str,
    places: &[Address],
) -> Result<(), AllocError> {
    text.push_str(word)?;
    add_sectors(alloc, text, places)
}

/// Adds the line of a step.
fn add_line(
    alloc: Global,
    text: &mut String,
    step: &Step,
    telling: &Telling,
) -> Result<(), AllocError> {
    match step {
        Step::Geos(file, places) => {
            add_places(alloc, text, telling.keeps(), places.as_slice())?;
            let name = file.name.as_str();
            text.push_str(format!(in alloc; ": blocks of the GEOS file \"{name}\"\n")?.as_str())
        }
        Step::Unclosed(file) => {
            let word = telling.deletes();
            let name = file.name.as_str();
            text.push_str(format!(in alloc; "{word} \"{name}\": it was never closed\n")?.as_str())
        }
        Step::Border(at) => {
            add_places(alloc, text, telling.keeps(), &[*at])?;
            text.push_str(": GEOS's border block\n")
        }
        Step::Others(places) => {
            add_places(alloc, text, telling.frees(), places.as_slice())?;
            text.push_str(": no file has them\n")
        }
    }
}

/// The steps in lines. The one error is want of memory.
pub fn lines_of(alloc: Global, plan: &Plan, telling: &Telling) -> Result<String, AllocError> {
    let mut text = String::new(alloc);
    for step in plan.steps.as_slice() {
        add_line(alloc, &mut text, step, telling)?;
    }
    if text.is_empty() && telling.is_dry {
        text.push_str("nothing would be freed or deleted\n")?;
    }
    Ok(text)
}
