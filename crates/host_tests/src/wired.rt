// Drive 8 with an empty disk, and a host that asks it one request after another.

use cbm_channel::{Channels, Dos};
use cbm_d64::D64Disk;
use cbm_drive::{Bus, Desk, Drive, Event, Pace, Party};
use cbm_host::{Done, Request, perform, perform_at};
use std::alloc::Global;
use std::process::Abort;
use std::test::Fail;
use test_images::empty_image;

/// An empty disk.
pub fn empty_disk(alloc: Global) -> Result<D64Disk, Fail> {
    let image = empty_image(alloc)?;
    Ok(D64Disk::from_bytes(alloc, image.as_slice(), false)?)
}

/// A drive with a host, at a moment.
#[derive(Drop)]
pub struct Wired {
    bus: Bus<Desk<D64Disk>, 1>,
    pace: Pace,
    now: u64,
    /// What happened on the wires.
    pub events: Vec<Event>,
}

impl Wired {
    ghost use Rattle.std.specs.Prelude.{◌≤◌};
    ghost use Rattle.cbm_host.specs.Engines.{channel_of};

    /// Switched on, with this reaction, at the profile's pace; its first request comes at 1000.
    pub fn new(rt: &impl Abort, alloc: Global, reaction: u8) -> Result<Wired, Fail> {
        Wired::at(rt, alloc, Pace::Profile, reaction)
    }

    /// The same at this pace.
    pub fn at(rt: &impl Abort, alloc: Global, pace: Pace, reaction: u8) -> Result<Wired, Fail> {
        assert!(rt; reaction > 0);
        let dos = Dos::new(empty_disk(alloc)?, Channels::new(alloc)?);
        let device = 8;
        let party = Party {
            device,
            reaction,
            pace,
        };
        let desk = Desk::new(dos, device).with_pace(pace);
        let bus = Bus::new([Drive::new(desk, party)]);
        let events = Vec::new(alloc);
        Ok(Wired {
            bus,
            pace,
            now: 1000,
            events,
        })
    }

    /// Carries out a request, and goes on where it ends.
    pub fn asks(&mut self, rt: &impl Abort, alloc: Global, request: Request) -> Result<Done, Fail>
        requires { channel_of request ≤ 15 }
    {
        assert!(rt; self.now < 1_000_000_000_000);
        let (bus, events) = (&mut self.bus, &mut self.events);
        let done = match self.pace {
            Pace::Profile => perform(alloc, bus, self.now, 8, request, events)?,
            Pace::Kernal => perform_at(alloc, Pace::Kernal, bus, self.now, 8, request, events)?,
        };
        self.now = done.end;
        Ok(done)
    }
}
