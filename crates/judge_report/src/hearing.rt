//! What is known of a trace so far: the judge, the acts that were printed, the wires if they alone are known, and a tidy
//! host if the host keeps the timing loosely.

use crate::bench::Bench;
use crate::fault::ReportFault;
use crate::report::{Asked, written};
use crate::teller::Teller;
use bus_judge::{Breach, NotABus, Scene};
use bus_tidy::Tidy;
use bus_wires::Wires;
use cbm_iec::{Change, Event, Who};
use std::io::Write;

/// How closely the host is to keep the timing of the bus.
#[derive(Clone, Copy, Debug, PartialEq, Eq, Drop)]
pub enum Timing {
    /// As sessions have it.
    Kept,
    /// But for changes of CLOCK and DATA that no drive heeds, as a computer's KERNAL makes them.
    Loosely,
}

/// A trace that is judged.
#[derive(Drop)]
pub struct Hearing {
    bench: Bench,
    teller: Teller,
    wires: Wires,
    /// The wires alone are known.
    is_by_wires: bool,
    /// The trace is judged as a tidy host has it.
    tidy: Option<Tidy>,
}

impl Hearing {
    /// Nothing of a trace of these drives was seen. Error: they are no bus.
    pub fn new(asked: &Asked<'_>) -> Result<Hearing, NotABus> {
        Ok(Hearing {
            bench: Bench::new(asked.parties, asked.ranges)?,
            teller: Teller::new(asked.form),
            wires: Wires::new(asked.parties).ok_or(NotABus::Count)?,
            is_by_wires: false,
            tidy: match asked.timing {
                Timing::Kept => None,
                Timing::Loosely => Some(Tidy::new(asked.parties)),
            },
        })
    }

    /// Judges an event: as it is, or as a tidy host has it. What broke the session, if it did.
    pub fn see<W: Write>(
        &mut self,
        event: Event,
        output: &mut W,
    ) -> Result<Option<Breach>, ReportFault> {
        let Some(tidy) = &mut self.tidy else {
            return self.judged(event, output);
        };
        match event.who {
            Who::Drive(device) => {
                tidy.drive(device, event.change);
                self.judged(event, output)
            }
            Who::Host => {
                let changes = tidy.host(event.change);
                self.host(&changes, output)
            }
        }
    }

    /// Judges changes of the host.
    fn host<W: Write>(
        &mut self,
        changes: &[Change],
        output: &mut W,
    ) -> Result<Option<Breach>, ReportFault> {
        for change in changes {
            let event = Event {
                who: Who::Host,
                change: *change,
            };
            let breach = self.judged(event, output)?;
            if breach.is_some() {
                return Ok(breach);
            }
        }
        Ok(None)
    }

    /// Judges an event and prints the act that it completes. What broke the session, if it did.
    fn judged<W: Write>(
        &mut self,
        event: Event,
        output: &mut W,
    ) -> Result<Option<Breach>, ReportFault> {
        self.bench.see(event, &mut self.teller, output)
    }

    /// Judges what a change of a wire shows.
    pub fn see_wire<W: Write>(
        &mut self,
        change: Change,
        output: &mut W,
    ) -> Result<Option<Breach>, ReportFault> {
        self.is_by_wires = true;
        self.wires.read(change)?;
        self.see_known(output)
    }

    /// Judges the events that are known by the wires.
    fn see_known<W: Write>(&mut self, output: &mut W) -> Result<Option<Breach>, ReportFault> {
        for _ in 0..u64::MAX {
            let Some(event) = self.wires.next() else {
                break;
            };
            let breach = self.see(event, output)?;
            if breach.is_some() {
                return Ok(breach);
            }
        }
        Ok(None)
    }

    /// The trace ends at a moment. What broke the session, if a change was due before.
    pub fn end<W: Write>(
        &mut self,
        moment: u64,
        output: &mut W,
    ) -> Result<Option<Breach>, ReportFault> {
        if self.is_by_wires {
            self.wires.finish(moment);
            let breach = self.see_known(output)?;
            if breach.is_some() {
                return Ok(breach);
            }
        }
        self.bench
            .end(moment.saturating_sub(1), &mut self.teller, output)
    }

    /// Ends the line that was begun.
    pub fn end_line<W: Write>(&mut self, output: &mut W) -> Result<(), ReportFault> {
        written(self.teller.end_line(output))
    }

    /// Where the session stands, and the number of the byte that is under way, since ATN was pulled or freed.
    pub fn scene(&self) -> (Scene, u32) {
        (self.bench.scene(), self.teller.byte())
    }
}
