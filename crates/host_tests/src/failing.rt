// A disk that refuses a write, in a drive on the wires.

use crate::wired::empty_disk;
use cbm_d64::D64Disk;
use cbm_drive::{Bus, Channels, Desk, Drive, Pace, Party};
use cbm_host::{Done, Request, perform};
use cbm_medium::Failing;
use std::alloc::Global;
use std::process::Abort;
use std::test::Fail;

/// The status if all is well.
const OK: &[u8] = b"00, OK,00,00\r";

/// The status if a write was refused begins with this.
const WRITE_ERROR: &[u8] = b"25,WRITE ERROR,";

/// The bytes of the second file.
const WORLD: &[u8] = b"WORLD";

/// Drive 8 with a disk that may fail, alone on a bus, and when the last request to it was over.
#[derive(Drop)]
struct Frail {
    bus: Bus<Desk<Failing<D64Disk>>, 1>,
    now: u64,
}

impl Frail {
    ghost use Rattle.std.specs.Prelude.{◌≤◌};
    ghost use Rattle.cbm_host.specs.Engines.{channel_of};

    // With an empty disk, which refuses one write after so many that pass.
    fn new(alloc: Global, passes: u32) -> Result<Frail, Fail> {
        let disk = Failing::new(empty_disk(alloc)?, passes, false);
        let party = Party {
            device: 8,
            reaction: 20,
            pace: Pace::Profile,
        };
        let bus = Bus::new([Drive::new(Desk::at_power_up(disk, Channels::new(alloc)?, 8), party)]);
        Ok(Frail { bus, now: 1000 })
    }

    // Carries out a request, and goes on where it ends.
    fn asks(&mut self, rt: &impl Abort, alloc: Global, request: Request) -> Result<Done, Fail>
        requires { channel_of request ≤ 15 }
    {
        assert!(rt; self.now < 1_000_000_000_000);
        let mut events = Vec::new(alloc);
        let done = perform(alloc, &mut self.bus, self.now, 8, request, &mut events)?;
        self.now = done.end;
        Ok(done)
    }
}

// The first status that isn't 00 while a file is written, or the last one.
fn told(rt: &impl Abort, alloc: Global, drive: &mut Frail) -> Result<Vec<u8>, Fail> {
    drive.asks(rt, alloc, Request::Open(2, b"DATA,S,W"))?;
    let opened = drive.asks(rt, alloc, Request::Status)?.bytes;
    if opened.as_slice() != OK {
        return Ok(opened);
    }
    drive.asks(rt, alloc, Request::Put(2, b"HELLO"))?;
    drive.asks(rt, alloc, Request::Close(2))?;
    Ok(drive.asks(rt, alloc, Request::Status)?.bytes)
}

// Another file is written and read.
fn goes_on(rt: &impl Abort, alloc: Global, drive: &mut Frail) -> Result<(), Fail> {
    drive.asks(rt, alloc, Request::Close(2))?;
    drive.asks(rt, alloc, Request::Open(3, b"NEXT,S,W"))?;
    drive.asks(rt, alloc, Request::Put(3, WORLD))?;
    drive.asks(rt, alloc, Request::Close(3))?;
    drive.asks(rt, alloc, Request::Open(3, b"NEXT"))?;
    let read = drive.asks(rt, alloc, Request::Get(3, 9))?;
    assert!(rt; read.bytes.as_slice() == WORLD);
    Ok(())
}

// Whichever write of an OPEN and a CLOSE is refused, the drive says so on channel 15, and then it goes on.
#[test]
fn a_refused_write_is_told_over_the_bus(rt: HostRuntime) -> Result<(), Fail> {
    let mut refused = 0u8;
    for passes in 0..8u32 {
        let mut drive = Frail::new(rt.alloc(), passes)?;
        let status = told(&rt, rt.alloc(), &mut drive)?;
        match status.as_slice().get(..15) {
            Some(front) => {
                assert!(&rt; front == WRITE_ERROR);
                refused = refused.saturating_add(1);
                goes_on(&rt, rt.alloc(), &mut drive)?;
            }
            None => assert!(&rt; status.as_slice() == OK),
        }
    }
    assert!(&rt; refused == 4);
    Ok(())
}
