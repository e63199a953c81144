//! The disk of an image, with a count of its writes.
ghost use Rattle.std.specs.Prelude.{◌≡◌, ◌≤◌, IfOk, IfErr, IfSome, OnOk};
ghost use Rattle.cbm_medium.specs.Place.{directory_head};
ghost use Rattle.cbm_medium.specs.Content.{written, blank, format_refusal};
ghost use Rattle.cbm_medium.specs.Seen.{with_content, formatted_as, write_refusal, IsRefused};
ghost use Rattle.cbm_device.specs.ImageDisks.{no_disk, sectors_seen, IsDiskOf, IsOpenRefusal, IsImageIn};

pub(crate) mod saving;

use crate::refusal::DeviceRefusal;
use cbm_image::{AnyDisk, ImageFault, Kind};
use cbm_medium::codes::WRITE_PROTECT_ON;
use cbm_medium::{Address, Fault, Medium, Steady};
use std::alloc::Global;
use std::marker::Model;

/// The sectors of a disk.
#[derive(Drop)]
pub enum Sectors {
    /// Of an image.
    Held(AnyDisk),
    /// Of no image: zeros that can't be written, which take no memory. It stands in a drive without a disk.
    Blank,
}

/// The disk of an image, and how often it was written.
#[derive(Drop)]
pub struct ImageDisk {
    sectors: Sectors,
    writes: u64,
}

impl Model for ImageDisk {
    ghost use Rattle.cbm_device.specs.ImageDisks.{Counted};

    ghost Value = { Counted };

    ghost view = { λ d. record { sectors = d.sectors; writes = d.writes } };
}

/// Writes a sector.
fn write_on(sectors: &mut Sectors, at: Address, bytes: &[u8; 256]) -> Result<(), Fault>
    requires { at.track ≤ (sectors_seen sectors.old).tracks }
    ensures ok { let old = sectors_seen sectors.old in
        OnOk result (sectors_seen sectors.new ≡ with_content (written old.content at bytes.now) old) }
    ensures refused { IfSome (write_refusal (sectors_seen sectors.old) at)
        (λ code. result ≡ Err (record { code = code; at = at })) }
    ensures err { IfErr result (λ fault. (fault.at ≡ at)
        × IsRefused (write_refusal (sectors_seen sectors.old) at) fault (sectors_seen sectors.old) (sectors_seen sectors.new)) }
{
    match sectors {
        Sectors::Held(disk) => disk.write(at, bytes),
        Sectors::Blank => Err(Fault {
            code: WRITE_PROTECT_ON,
            at,
        }),
    }
}

/// Makes each sector zeros.
fn format_on(sectors: &mut Sectors, id: [u8; 2]) -> Result<(), Fault>
    ensures ok { OnOk result (sectors_seen sectors.new ≡ formatted_as id (with_content blank (sectors_seen sectors.old))) }
    ensures refused { IfSome (format_refusal (sectors_seen sectors.old).protected)
        (λ code. result ≡ Err (record { code = code; at = directory_head })) }
    ensures err { IfErr result (λ fault. (fault.at ≡ directory_head)
        × IsRefused (format_refusal (sectors_seen sectors.old).protected) fault (sectors_seen sectors.old)
        (sectors_seen sectors.new)) }
{
    match sectors {
        Sectors::Held(disk) => disk.format(id),
        Sectors::Blank => Err(Fault {
            code: WRITE_PROTECT_ON,
            at: Address::of_map(),
        }),
    }
}

impl ImageDisk {
    /// The disk of an image. Errors: `NoImage`, `Memory`.
    pub fn open(alloc: Global, image: &[u8], protected: bool) -> Result<ImageDisk, DeviceRefusal>
        ensures ok { IfOk result (IsDiskOf image.now protected) }
        ensures err { IfErr result (IsOpenRefusal image.now) }
    {
        match AnyDisk::open(alloc, image, protected) {
            Ok(disk) => Ok(ImageDisk {
                sectors: Sectors::Held(disk),
                writes: 0,
            }),
            Err(ImageFault::Format(_)) => Err(DeviceRefusal::NoImage),
            Err(ImageFault::Memory) => Err(DeviceRefusal::Memory),
        }
    }

    /// No disk: zeros that can't be written.
    pub fn blank() -> ImageDisk
        ensures { result ≡ no_disk }
    {
        ImageDisk {
            sectors: Sectors::Blank,
            writes: 0,
        }
    }

    /// The image of the disk as it is now, in this format. The one error is `Memory`; a disk of the other format, which no write
    /// makes of it, is refused so, too.
    pub fn save(&self, alloc: Global, kind: Kind) -> Result<Vec<u8>, DeviceRefusal>
        ensures ok { IfOk result (λ v. IsImageIn kind self.now v.items) }
        ensures err { IfErr result (λ r. r ≡ DeviceRefusal.Memory) }
    {
        match &self.sectors {
            Sectors::Held(disk) => disk.save(alloc, kind).map_err(|_| DeviceRefusal::Memory),
            Sectors::Blank => Err(DeviceRefusal::Memory),
        }
    }

    /// How often a sector was written, or all were at once; it stops at 2^64 - 1.
    pub fn writes(&self) -> u64
        ensures { result ≡ self.now.writes }
    {
        self.writes
    }
}

impl Medium for ImageDisk {
    ghost use Rattle.std.specs.Prelude.{◌≡◌, ◌≤◌, ◌+◌, ◌^◌, ◌-◌, min, IfErr, IfSome, OnOk, Err};
    ghost use Rattle.cbm_medium.specs.Place.{directory_head};
    ghost use Rattle.cbm_medium.specs.Content.{written, blank, format_refusal};
    ghost use Rattle.cbm_medium.specs.Seen.{with_content, formatted_as, write_refusal, IsRefused};
    ghost use Rattle.cbm_device.specs.ImageDisks.{counted_seen, counted_has_codes, outer_free};

    ghost seen = { counted_seen };

    ghost codes = { counted_has_codes };

    ghost outer_headers = { outer_free };

    fn read(&self, at: Address) -> Result<[u8; 256], Fault> {
        match &self.sectors {
            Sectors::Held(disk) => disk.read(at),
            Sectors::Blank => Ok([0; 256]),
        }
    }

    fn write(&mut self, at: Address, bytes: &[u8; 256]) -> Result<(), Fault>
        requires { at.track ≤ (counted_seen self.old).tracks }
        ensures ok { let old = counted_seen self.old in
            OnOk result (counted_seen self.new ≡ with_content (written old.content at bytes.now) old) }
        ensures refused { IfSome (write_refusal (counted_seen self.old) at)
            (λ code. result ≡ Err (record { code = code; at = at })) }
        ensures err { IfErr result (λ fault. (fault.at ≡ at)
            × IsRefused (write_refusal (counted_seen self.old) at) fault (counted_seen self.old) (counted_seen self.new)) }

        // It is counted, up to the greatest number.
        ensures counted { OnOk result (self.new.writes ≡ min (self.old.writes + 1) (2 ^ 64 - 1)) }
    {
        write_on(&mut self.sectors, at, bytes)?;
        self.writes = self.writes.saturating_add(1);
        Ok(())
    }

    fn format(&mut self, id: [u8; 2]) -> Result<(), Fault>
        ensures ok { OnOk result (counted_seen self.new ≡ formatted_as id (with_content blank (counted_seen self.old))) }
        ensures refused { IfSome (format_refusal (counted_seen self.old).protected)
            (λ code. result ≡ Err (record { code = code; at = directory_head })) }
        ensures err { IfErr result (λ fault. (fault.at ≡ directory_head)
            × IsRefused (format_refusal (counted_seen self.old).protected) fault (counted_seen self.old) (counted_seen self.new)) }
        ensures counted { OnOk result (self.new.writes ≡ min (self.old.writes + 1) (2 ^ 64 - 1)) }
    {
        format_on(&mut self.sectors, id)?;
        self.writes = self.writes.saturating_add(1);
        Ok(())
    }

    fn tracks(&self) -> u8 {
        match &self.sectors {
            Sectors::Held(disk) => disk.tracks(),
            Sectors::Blank => 35,
        }
    }

    fn protected(&self) -> bool {
        match &self.sectors {
            Sectors::Held(disk) => disk.protected(),
            Sectors::Blank => true,
        }
    }

    fn failures(&self) -> u64 {
        0
    }
}

impl Steady for ImageDisk {
    ghost use Rattle.cbm_device.specs.ImageDisks.{never_fails};

    ghost steady = { never_fails };
}
