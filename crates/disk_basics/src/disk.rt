//! The disk of an image, with calls that promise nothing.
use cbm_bam::{SectorSet, geometry};
use cbm_image::AnyDisk;
use cbm_medium::{Address, Fault, Medium, sectors_of};
use cbm_shell::parts::{is_free_at, use_chain, use_geos};
use cbm_shell::{
    DiskFlaw, Info, Listed, Salvaged, ShellFault, entries_of, error_at, flaws_of, listed_of,
    lost_of, open_disk, picture_of, read_file, salvage, users_of,
};
use cbm_volume::{Entry, Label, Unsound, Volume};
use std::alloc::{AllocError, Global};

/// The disk of an image, opened once.
#[derive(Drop)]
pub struct Disk {
    volume: Volume<AnyDisk>,
}

impl Disk {
    /// The disk of an image. Errors: `Image`, `Memory`.
    pub fn open(alloc: Global, image: &[u8]) -> Result<Disk, ShellFault> {
        let volume = open_disk(alloc, image)?;
        Ok(Disk { volume })
    }

    /// The entries of its directory, empty slots too. Errors: `Trouble`, `Memory`.
    pub fn entries(&self, alloc: Global) -> Result<Vec<Entry>, ShellFault> {
        entries_of(alloc, &self.volume)
    }

    /// The entries of its directory up to where it breaks off or comes back to a sector of its own, and why it does. The one
    /// error is want of memory.
    pub fn listed(&self, alloc: Global) -> Result<Listed, AllocError> {
        listed_of(alloc, &self.volume)
    }

    /// The bytes of an entry's file. Errors: `Trouble`, `Memory`.
    pub fn file_of(&self, alloc: Global, entry: &Entry) -> Result<Vec<u8>, ShellFault> {
        read_file(alloc, &self.volume, entry)
    }

    /// What can be read of an entry's file. The one error is want of memory.
    pub fn salvage(&self, alloc: Global, entry: &Entry) -> Result<Salvaged, AllocError> {
        salvage(alloc, &self.volume, entry)
    }

    /// Where the blocks of an entry's file lie, in order. The one error is want of memory.
    pub fn blocks(&self, alloc: Global, entry: &Entry) -> Result<Vec<Address>, AllocError> {
        cbm_place::blocks_of(alloc, &self.volume, entry)
    }

    /// All that is wrong with it. Errors: `Trouble`, `Memory`.
    pub fn flaws(&self, alloc: Global) -> Result<Vec<DiskFlaw>, ShellFault> {
        flaws_of(alloc, &self.volume)
    }

    /// The slots whose files use a sector. The one error is `Memory`.
    pub fn users(&self, alloc: Global, at: Address) -> Result<Vec<usize>, ShellFault> {
        users_of(alloc, &self.volume, at)
    }

    /// The blocks that nothing uses, and that aren't free. The one error is `Memory`.
    pub fn lost(&self, alloc: Global) -> Result<Vec<Address>, ShellFault> {
        lost_of(alloc, &self.volume)
    }

    /// Whether it is sound, or what is wrong with it first.
    pub fn check(&self) -> Result<(), Unsound> {
        self.volume.check()
    }

    /// Title, id and kind of DOS; None where 18/0 can't be read.
    pub fn label(&self) -> Option<Label> {
        self.volume.label().ok()
    }

    /// The blocks that are free for files; None where 18/0 can't be read.
    pub fn free(&self) -> Option<u16> {
        self.volume.free().ok()
    }

    /// What it is. The one error is want of memory.
    pub fn info(&self, alloc: Global) -> Result<Info, AllocError> {
        let mut unreadable = Vec::new(alloc);
        let tracks = self.volume.medium().tracks();
        for track in 0..tracks {
            self.add_faults(&mut unreadable, track.saturating_add(1))?;
        }
        Ok(Info {
            tracks,
            label: self.label(),
            free: self.free(),
            check: self.check(),
            unreadable,
        })
    }

    /// Adds the sectors of a track that don't read.
    fn add_faults(&self, faults: &mut Vec<Fault>, track: u8) -> Result<(), AllocError> {
        let medium = self.volume.medium();
        for sector in 0..sectors_of(track) {
            if let Some(at) = Address::new(track, sector)
                && at.track() <= medium.tracks()
                && let Err(fault) = medium.read(at)
            {
                faults.push(fault).map_err(AllocError::from)?;
            }
        }
        Ok(())
    }

    /// A picture of its sectors, which is the last that is asked of it. The one error is `Memory`.
    pub fn into_picture(self, alloc: Global) -> Result<Vec<u8>, ShellFault> {
        picture_of(alloc, self.volume.into_medium())
    }

    /// The bytes of a sector, or the code of what stands in their place; None where the disk has no such track.
    pub fn sector(&self, at: Address) -> Option<Result<[u8; 256], u8>> {
        let medium = self.volume.medium();
        if at.track() > medium.tracks() {
            return None;
        }
        match medium.read(at) {
            Ok(bytes) => Some(Ok(bytes)),
            Err(fault) => Some(Err(fault.code)),
        }
    }

    /// Whether the BAM has a sector as taken; no sector where 18/0 can't be read or has no room for it.
    pub fn is_taken(&self, at: Address) -> bool {
        if !matches!(self.sector(Address::of_map()), Some(Ok(_))) {
            return false;
        }
        let medium = self.volume.medium();
        at.track() <= medium.tracks() && !is_free_at(medium, geometry(medium), at)
    }

    /// Adds the sectors of the chain of an entry's file, and those of its side sectors, up to where they end or break off.
    pub fn use_file(&self, entry: &Entry, used: &mut SectorSet) {
        let medium = self.volume.medium();
        let geometry = geometry(medium);
        use_chain(medium, geometry, entry.first_block(), used);
        if entry.is_relative() {
            use_chain(medium, geometry, entry.first_side(), used);
        }
    }

    /// The sectors of an entry's file: of its chain, of its side sectors, and of the blocks that GEOS keeps for it.
    pub fn sectors_of(&self, entry: &Entry) -> SectorSet {
        let medium = self.volume.medium();
        let mut sectors = SectorSet::new();
        self.use_file(entry, &mut sectors);
        use_geos(medium, geometry(medium), entry, &mut sectors);
        sectors
    }

    /// The code of what stands in place of a sector's bytes; None where it reads.
    pub fn error_at(&self, at: Address) -> Option<u8> {
        error_at(&self.volume, at)
    }
}
