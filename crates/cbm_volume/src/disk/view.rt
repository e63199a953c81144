// The disk as VALIDATE looks at it.

ghost use Rattle.std.specs.Prelude.{◌≡◌, ◌<◌, ◌≤◌, ◌+◌};
ghost use Rattle.cbm_volume.specs.Views.{zeroed, taken_map, clear_open, swept, view_at};

use cbm_directory::Entry;
use cbm_medium::codes::WRITE_PROTECT_ON;
use cbm_medium::{Address, Fault, Geometry, Medium};

/// A sector with this many zeros from a place on.
fn zeroed(sector: &[u8; 256], from: usize, count: usize) -> [u8; 256]
    requires { from + count ≤ 256 }
    ensures { result ≡ zeroed from count sector.now }
{
    let mut zeroed = *sector;
    zeroed[from..from + count].fill(0);
    zeroed
}

/// A map that has no sector as free, with counts that say so; the bytes outside the rows of its tracks stay.
fn taken(map: &[u8; 256], geometry: Geometry) -> [u8; 256]
    ensures { result ≡ taken_map geometry map.now }
{
    // The rows of the tracks 1 to 35, and after the title those of the tracks 36 to 40.
    let inner = zeroed(map, 4, 140);
    if geometry.tracks() < 40 {
        return inner;
    }
    zeroed(&inner, 192, 20)
}

/// A sector of the directory in which an entry is empty unless it is closed.
fn cleared(sector: &[u8; 256], number: u8) -> [u8; 256]
    requires { number < 8 }
    ensures { result ≡ clear_open number sector.now }
{
    let mut cleared = *sector;
    if !Entry::of(sector, number).is_closed() {
        cleared[32 * number as usize + 2] = 0;
    }
    cleared
}

/// A sector of the directory with its closed entries alone.
fn closed_alone(sector: &[u8; 256]) -> [u8; 256]
    ensures { result ≡ swept 8 sector.now }
{
    let mut closed = *sector;
    for number in 0..8u8 {
        closed = cleared(&closed, number);
    }
    closed
}

/// What a sector shows, of its bytes.
fn shown(sector: &[u8; 256], at: Address, geometry: Geometry) -> [u8; 256]
    ensures { result ≡ view_at geometry at sector.now }
{
    if at.track() != 18 {
        return *sector;
    }
    if at.sector() == 0 {
        return taken(sector, geometry);
    }
    closed_alone(sector)
}

/// A medium as VALIDATE looks at it: no sector of the disk is free, each slot that was never closed is empty, and
/// nothing can be written. So what is wrong with it is what VALIDATE can't mend.
#[derive(Drop)]
pub struct ClosedView<'a, M> {
    pub medium: &'a M,
    pub geometry: Geometry,
}

impl<M: Medium> Medium for ClosedView<'_, M> {
    ghost use Rattle.std.specs.Prelude.{◌≡◌};
    ghost use Rattle.cbm_volume.specs.Views.{viewed};
    ghost use Rattle.cbm_volume.specs.ViewLaws.{view_codes, view_outer};

    ghost seen = { λ v. viewed v.geometry (M.seen v.medium.now) };

    ghost codes = { λ v p. view_codes v.geometry (M.seen v.medium.now).content p (M.codes v.medium.now p) };

    ghost outer_headers = { λ v p wide far. view_outer v.geometry (M.seen v.medium.now).content p far
        (M.outer_headers v.medium.now p wide far) };

    fn read(&self, at: Address) -> Result<[u8; 256], Fault> {
        let sector = self.medium.read(at)?;
        Ok(shown(&sector, at, self.geometry))
    }

    fn write(&mut self, at: Address, bytes: &[u8; 256]) -> Result<(), Fault> {
        Err(Fault {
            code: WRITE_PROTECT_ON,
            at,
        })
    }

    fn format(&mut self, id: [u8; 2]) -> Result<(), Fault> {
        Err(Fault {
            code: WRITE_PROTECT_ON,
            at: Address::of_map(),
        })
    }

    fn tracks(&self) -> u8 {
        self.medium.tracks()
    }

    fn protected(&self) -> bool {
        true
    }

    fn failures(&self) -> u64 {
        self.medium.failures()
    }
}
