//! The cable: one or two drives, the host's lines, and what both come to on the wires. What happens is looked at beside a tidy
//! host's trace.

use bus_beside::{Loosely, Unkept};
use cbm_d64::D64Disk;
use cbm_drive::Line::*;
use cbm_drive::{Bus, Change, Desk, Event, Held, Line, Lines, Way, Who};

/// The drives on the cable, and the same drives, with disks of their own, for who looks whether the host keeps the timing loosely.
#[derive(Drop)]
pub enum Drives {
    /// Drive 8.
    One(Bus<Desk<D64Disk>, 1>, Loosely<Desk<D64Disk>, 1>),
    /// Drives 8 and 9.
    Two(Bus<Desk<D64Disk>, 2>, Loosely<Desk<D64Disk>, 2>),
}

/// The device number of the first drive.
pub const FIRST: u8 = 8;

/// More reactions than drives have to make between two accesses of the host.
const MOST: u32 = 1000;

/// What a drive holds as it is switched on.
const ALL_FREE: Held = Held {
    clock_low: false,
    data_low: false,
};

/// The cable, with what each drive and the host holds.
#[derive(Drop)]
pub struct Cable {
    drives: Drives,
    host: Lines,
    first: Held,
    second: Held,
    /// Why it isn't known that the host keeps the timing loosely.
    unkept: Option<Unkept>,
    /// The last moment that was looked at.
    last: u64,
}

/// What is held once a change is made.
fn after(lines: Lines, line: Line, low: bool) -> Lines {
    match line {
        Atn => Lines {
            atn_low: low,
            ..lines
        },
        Clock => Lines {
            clock_low: low,
            ..lines
        },
        Data => Lines {
            data_low: low,
            ..lines
        },
    }
}

impl Cable {
    /// Drives that are switched on, and all lines free.
    pub fn new(drives: Drives) -> Cable {
        Cable {
            drives,
            host: Lines {
                atn_low: false,
                clock_low: false,
                data_low: false,
            },
            first: ALL_FREE,
            second: ALL_FREE,
            unkept: None,
            last: 0,
        }
    }

    /// Looks at the next event of the trace, as long as the host keeps the timing loosely.
    fn see(&mut self, event: Event) {
        if self.unkept.is_some() {
            return;
        }
        let seen = match &mut self.drives {
            Drives::One(_, looked) => looked.see(event),
            Drives::Two(_, looked) => looked.see(event),
        };
        self.unkept = seen.err();
    }

    /// Whether the host keeps the timing loosely, up to its last change. Else why that isn't known.
    pub fn keeps_loosely(&mut self) -> Result<(), Unkept> {
        if let Some(unkept) = self.unkept {
            return Err(unkept);
        }
        match &mut self.drives {
            Drives::One(_, looked) => looked.end(self.last),
            Drives::Two(_, looked) => looked.end(self.last),
        }
    }

    /// When a drive reacts next.
    fn next_due(&self) -> Option<u64> {
        match &self.drives {
            Drives::One(bus, _) => bus.next_due(),
            Drives::Two(bus, _) => bus.next_due(),
        }
    }

    /// The reaction that is due happens.
    fn react(&mut self, moment: u64) {
        if moment >= 1 << 58 {
            return;
        }
        let answer = match &mut self.drives {
            Drives::One(bus, _) => bus.due(moment),
            Drives::Two(bus, _) => bus.due(moment),
        };
        if let Some(answer) = answer {
            for change in &answer.changes {
                self.note(answer.device, *change);
            }
        }
    }

    /// A drive changed a line.
    fn note(&mut self, device: u8, change: Change) {
        let who = Who::Drive(device);
        self.see(Event { who, change });
        let low = change.way == Way::Pull;
        match (change.line, device == FIRST) {
            (Atn, _) => {}
            (Clock, true) => self.first.clock_low = low,
            (Data, true) => self.first.data_low = low,
            (Clock, false) => self.second.clock_low = low,
            (Data, false) => self.second.data_low = low,
        }
    }

    /// What is due before a moment happens.
    fn settle(&mut self, moment: u64) {
        for _ in 0..MOST {
            match self.next_due() {
                Some(due) if due < moment => self.react(due),
                _ => return,
            }
        }
    }

    /// The host pulls or frees a line, unless it holds it so already. It comes before what the drives do at that moment.
    pub fn change(&mut self, change: Change) {
        self.settle(change.moment);
        let host = after(self.host, change.line, change.way == Way::Pull);
        if host == self.host || change.moment >= 1 << 58 {
            return;
        }
        self.host = host;
        self.last = change.moment;
        let who = Who::Host;
        self.see(Event { who, change });
        match &mut self.drives {
            Drives::One(bus, _) => bus.line(change),
            Drives::Two(bus, _) => bus.line(change),
        }
    }

    /// Which lines are low at a moment: what was done before it.
    pub fn seen(&mut self, moment: u64) -> Lines {
        self.settle(moment);
        let drives_clock = self.first.clock_low || self.second.clock_low;
        let drives_data = self.first.data_low || self.second.data_low;
        Lines {
            atn_low: self.host.atn_low,
            clock_low: self.host.clock_low || drives_clock,
            data_low: self.host.data_low || drives_data,
        }
    }
}
