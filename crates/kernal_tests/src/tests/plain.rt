//! A host that keeps the bus's timing to the microsecond, at drives of either pace; and one that breaks a bound by one.

use crate::tests::cable::Cable;
use crate::tests::disks::{image_with_hello, one, seat, two};
use bus_beside::{Amiss, Beside, Unkept};
use cbm_d64::D64Disk;
use cbm_drive::Line::*;
use cbm_drive::Way::*;
use cbm_drive::{Change, Desk, Event, Line, Pace, Party, Way, Who};
use std::alloc::Global;
use std::process::Abort;

/// A bound of the host.
#[derive(Clone, Copy, Debug, PartialEq, Eq, Drop)]
enum Bound {
    /// CLOCK's release for a byte, after ATN's pull.
    Called,
    /// The same after the last accept.
    Accepted,
    /// CLOCK's release with a bit, after its pull.
    Bit,
    /// CLOCK's pull after a bit.
    BitEnd,
}

/// Such a host, and the bound that it breaks by one.
#[derive(Drop)]
struct Plain {
    cable: Cable,
    moment: u64,
    /// How long after CLOCK's last pull of a byte the fastest drive accepts it.
    reaction: u64,
    broken: Option<Bound>,
}

impl Plain {
    /// Some microseconds later it pulls or frees a line.
    fn after(&mut self, wait: u64, line: Line, way: Way) {
        self.moment = self.moment.wrapping_add(wait);
        let moment = self.moment;
        self.cable.change(Change { moment, line, way });
    }

    /// The same at a bound, or one before it.
    fn bounded(&mut self, wait: u64, bound: Bound, line: Line, way: Way) {
        let early = self.broken == Some(bound);
        self.after(if early { wait.wrapping_sub(1) } else { wait }, line, way);
    }

    /// A byte, whose CLOCK's release was made.
    fn bits(&mut self, byte: u8) {
        self.after(100, Clock, Pull);
        for place in 0..8u8 {
            let way = if byte >> place & 1 == 1 { Free } else { Pull };
            self.after(0, Data, way);
            self.bounded(20, Bound::Bit, Clock, Free);
            self.bounded(20, Bound::BitEnd, Clock, Pull);
        }
        self.after(0, Data, Free);
    }

    /// ATN's pull, and two bytes in attention.
    fn calls(&mut self, first: u8, second: u8) {
        self.after(1000, Atn, Pull);
        self.after(0, Clock, Pull);
        self.after(0, Data, Free);
        self.bounded(100, Bound::Called, Clock, Free);
        self.bits(first);
        self.bounded(
            self.reaction.wrapping_add(100),
            Bound::Accepted,
            Clock,
            Free,
        );
        self.bits(second);
        self.moment = self.moment.wrapping_add(self.reaction).wrapping_add(60);
    }

    /// ATN's release, if it made nobody a talker or a listener.
    fn rests(&mut self) {
        self.after(0, Atn, Free);
        self.after(0, Clock, Free);
    }

    /// Waits until CLOCK is pulled, or free.
    fn waits(&mut self, low: bool) {
        for _ in 0..5000u32 {
            if self.cable.seen(self.moment).clock_low == low {
                return;
            }
            self.moment = self.moment.wrapping_add(1);
        }
    }

    /// A turnaround, and a byte of the talker.
    fn takes(&mut self) {
        self.after(0, Data, Pull);
        self.after(0, Atn, Free);
        self.after(20, Clock, Free);
        self.waits(true);
        self.waits(false);
        self.after(1, Data, Free);
        for _ in 0..8 {
            self.waits(true);
            self.waits(false);
        }
        self.waits(true);
        self.after(10, Data, Pull);
    }

    /// LISTEN and UNLISTEN, TALK for the status and a byte of it, UNTALK. Whether the host keeps the timing loosely.
    fn keeps_loosely(&mut self) -> Result<(), Unkept> {
        self.calls(0x28, 0x3f);
        self.rests();
        self.calls(0x48, 0x6f);
        self.takes();
        self.calls(0x5f, 0x3f);
        self.rests();
        self.cable.keeps_loosely()
    }
}

/// The disk of the drives, their pace and the first one's reaction, and whether they are two.
#[derive(Clone, Copy, Drop)]
struct Setting {
    pace: Pace,
    reaction: u8,
    both: bool,
}

/// Whether a host keeps the timing loosely that breaks this bound, or none.
fn kept(
    rt: &impl Abort,
    alloc: Global,
    image: &[u8],
    setting: Setting,
    broken: Option<Bound>,
) -> Result<(), Unkept> {
    let Setting {
        pace,
        reaction,
        both,
    } = setting;
    let drives = if both {
        two(rt, alloc, image, pace, reaction)
    } else {
        one(rt, alloc, image, pace, reaction)
    };
    let fastest = if both {
        reaction.min(61u8.saturating_sub(reaction))
    } else {
        reaction
    };
    let mut host = Plain {
        cable: Cable::new(drives),
        moment: 0,
        reaction: fastest as u64,
        broken,
    };
    host.keeps_loosely()
}

#[test]
fn a_bound_is_kept_and_broken_by_one(rt: HostRuntime) {
    let image = image_with_hello(&rt, rt.alloc());
    for pace in [Pace::Profile, Pace::Kernal] {
        for reaction in [1, 20, 60u8] {
            for both in [false, true] {
                let setting = Setting {
                    pace,
                    reaction,
                    both,
                };
                let well = kept(&rt, rt.alloc(), image.as_slice(), setting, None);
                assert!(rt; well.is_ok(), "{pace:?}, {reaction}, {both}: {well:?}");
                for bound in [Bound::Called, Bound::Accepted, Bound::Bit, Bound::BitEnd] {
                    let broken = kept(&rt, rt.alloc(), image.as_slice(), setting, Some(bound));
                    let is_refused = matches!(broken, Err(Unkept::Tidy(_)));
                    assert!(rt;
                        is_refused,
                        "{pace:?}, {reaction}, {both}, {bound:?}: {broken:?}"
                    );
                }
            }
        }
    }
}

/// A change of a line.
fn at(moment: u64, line: Line, way: Way) -> Change {
    Change { moment, line, way }
}

#[test]
fn what_a_drive_heeds_is_not_left_out(rt: HostRuntime) {
    let image = image_with_hello(&rt, rt.alloc());
    let party = Party {
        device: 8,
        reaction: 20,
        pace: Pace::Kernal,
    };
    let mut looked = Beside::new([seat(&rt, rt.alloc(), image.as_slice(), party)]);
    let called = at(1000, Atn, Pull);
    assert!(rt;
        looked
            .host(called, &[called, at(1000, Clock, Pull)])
            .is_ok()
    );
    let answer = Event {
        who: Who::Drive(8),
        change: at(1020, Data, Pull),
    };
    assert!(rt; looked.drive(answer).is_ok());
    assert!(rt; looked.host(at(1050, Data, Pull), &[]).is_ok());
    assert!(rt; looked.host(at(1060, Data, Free), &[]).is_ok());
    assert!(rt; looked.host(at(1100, Clock, Pull), &[]).is_ok());
    assert!(rt; looked.host(at(1110, Data, Pull), &[]).is_ok());
    assert!(rt; looked.host(at(1200, Clock, Free), &[]) == Err(Amiss::Host));
}
