//! The judge of drives that always take the same time to react, or of those whose reactions vary.

use crate::fault::ReportFault;
use crate::report::written;
use crate::teller::Teller;
use bus_judge::{Breach, Judge, NotABus, Range, Scene, VariedJudge};
use cbm_iec::{Event, Party};
use std::io::Write;

/// The judge of a trace.
#[derive(Drop)]
pub enum Bench {
    /// Of drives that always take the same time to react.
    Exact(Judge),
    /// Of drives whose reactions vary.
    Varied(VariedJudge),
}

/// Judges the changes that were heard, and prints the acts that are completed.
fn drained<W: Write>(
    judge: &mut VariedJudge,
    teller: &mut Teller,
    output: &mut W,
) -> Result<Option<Breach>, ReportFault> {
    for _ in 0..u64::MAX {
        match judge.next() {
            Ok(None) => break,
            Ok(Some(taken)) => written(teller.tell(output, taken.event, taken.mark))?,
            Err(breach) => return Ok(Some(breach)),
        }
    }
    Ok(None)
}

/// Judges an event, once those of one moment were heard.
fn judged_varied<W: Write>(
    judge: &mut VariedJudge,
    event: Event,
    teller: &mut Teller,
    output: &mut W,
) -> Result<Option<Breach>, ReportFault> {
    if event.change.moment > judge.moment() {
        let breach = drained(judge, teller, output)?;
        if breach.is_some() {
            return Ok(breach);
        }
    }
    Ok(judge.hear(event).err())
}

impl Bench {
    /// The judge of these drives. Error: they are no bus.
    pub fn new(parties: &[Party], ranges: &[Range]) -> Result<Bench, NotABus> {
        if ranges.is_empty() {
            return Ok(Bench::Exact(Judge::new(parties)?));
        }
        Ok(Bench::Varied(VariedJudge::new(parties, ranges)?))
    }

    /// Judges an event and prints the acts that are completed with it. What broke the session, if it did.
    pub fn see<W: Write>(
        &mut self,
        event: Event,
        teller: &mut Teller,
        output: &mut W,
    ) -> Result<Option<Breach>, ReportFault> {
        match self {
            Bench::Exact(judge) => match judge.see(event) {
                Ok(mark) => {
                    written(teller.tell(output, event, mark))?;
                    Ok(None)
                }
                Err(breach) => Ok(Some(breach)),
            },
            Bench::Varied(judge) => judged_varied(judge, event, teller, output),
        }
    }

    /// The trace ends at a moment. What broke the session, if a change was due by then.
    pub fn end<W: Write>(
        &mut self,
        moment: u64,
        teller: &mut Teller,
        output: &mut W,
    ) -> Result<Option<Breach>, ReportFault> {
        match self {
            Bench::Exact(judge) => Ok(judge.end(moment).err()),
            Bench::Varied(judge) => {
                let breach = drained(judge, teller, output)?;
                if breach.is_some() {
                    return Ok(breach);
                }
                Ok(judge.end(moment).err())
            }
        }
    }

    /// Where the session stands.
    pub fn scene(&self) -> Scene {
        match self {
            Bench::Exact(judge) => judge.scene(),
            Bench::Varied(judge) => judge.scene(),
        }
    }
}
