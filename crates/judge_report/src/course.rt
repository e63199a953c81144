//! The course of judging a trace: to its first breach, or on to its end.

use crate::fault::ReportFault;
use crate::hearing::Hearing;
use crate::held::{Held, change_of};
use crate::report::{Asked, Extent};
use crate::told::{Place, tell_anew, tell_breach, tell_breaches, tell_session};
use bus_judge::{Breach, NotABus, Verdict};
use bus_traces::{Told, Traces};
use std::alloc::Global;
use std::io::{Read, Write};

/// A trace that is judged.
#[derive(Drop)]
pub struct Course<'a> {
    asked: &'a Asked<'a>,
    hearing: Hearing,
    held: Held,
    /// What is read is judged: no breach came since the trace began, or since it was judged anew.
    is_judging: bool,
    breaches: u64,
    /// Who broke it first.
    verdict: Verdict,
}

/// Judges one change of the trace; what broke the session, if it did.
fn heard<W: Write>(
    hearing: &mut Hearing,
    told: Told,
    output: &mut W,
) -> Result<Option<Breach>, ReportFault> {
    match told {
        Told::Party(event) => hearing.see(event, output),
        Told::Wire(change) => hearing.see_wire(change, output),
    }
}

impl<'a> Course<'a> {
    /// Nothing of the trace was read. Error: its drives are no bus.
    pub fn new(asked: &'a Asked<'a>) -> Result<Course<'a>, NotABus> {
        Ok(Course {
            asked,
            hearing: Hearing::new(asked)?,
            held: Held::none(),
            is_judging: true,
            breaches: 0,
            verdict: Verdict::Session,
        })
    }

    /// Judges the trace, which begins with this change, and prints what is said of it on the way.
    pub fn hear_all<R: Read, W: Write>(
        &mut self,
        alloc: Global,
        first: Told,
        traces: &mut Traces<R>,
        output: &mut W,
    ) -> Result<(), ReportFault> {
        let mut told = first;
        for _ in 0..u64::MAX {
            self.hear(alloc, told, traces.line(), output)?;
            if self.is_over() {
                return Ok(());
            }
            match traces.next()? {
                None => break,
                Some(next) => told = next,
            }
        }
        self.end(alloc, traces.moment(), traces.line(), output)
    }

    /// Whether the rest of the trace isn't judged.
    fn is_over(&self) -> bool {
        self.breaches > 0 && self.asked.extent == Extent::FirstBreach
    }

    /// Judges a change, unless a breach came before. After one the trace is judged anew from a change on that begins a session, which
    /// may be the one that broke it.
    fn hear<W: Write>(
        &mut self,
        alloc: Global,
        told: Told,
        line: u64,
        output: &mut W,
    ) -> Result<(), ReportFault> {
        let begins = self.held.begins(told);
        self.held.take(told);
        if self.is_judging {
            self.judge(alloc, told, line, output)?;
        }
        if begins && !self.is_judging && self.asked.extent == Extent::All {
            self.begin_anew(alloc, told, output)?;
            self.judge(alloc, told, line, output)?;
        }
        Ok(())
    }

    /// The trace is judged anew from a change on. (A function of its own: in `hear` the room for a `Hearing` would be cleared at each
    /// change.)
    fn begin_anew<W: Write>(
        &mut self,
        alloc: Global,
        told: Told,
        output: &mut W,
    ) -> Result<(), ReportFault> {
        let (_, change) = change_of(told);
        tell_anew(alloc, output, self.asked.form, change.moment)?;
        self.hearing = Hearing::new(self.asked)?;
        self.is_judging = true;
        Ok(())
    }

    /// Judges a change.
    fn judge<W: Write>(
        &mut self,
        alloc: Global,
        told: Told,
        line: u64,
        output: &mut W,
    ) -> Result<(), ReportFault> {
        match heard(&mut self.hearing, told, output)? {
            None => Ok(()),
            Some(breach) => self.tell(alloc, breach, line, output),
        }
    }

    /// The trace ends at a moment.
    fn end<W: Write>(
        &mut self,
        alloc: Global,
        moment: u64,
        line: u64,
        output: &mut W,
    ) -> Result<(), ReportFault> {
        if !self.is_judging {
            return Ok(());
        }
        match self.hearing.end(moment, output)? {
            None => Ok(()),
            Some(breach) => self.tell(alloc, breach, line, output),
        }
    }

    /// Prints a breach, after which nothing is judged until a session begins.
    fn tell<W: Write>(
        &mut self,
        alloc: Global,
        breach: Breach,
        line: u64,
        output: &mut W,
    ) -> Result<(), ReportFault> {
        self.end_line(output)?;
        let (scene, byte) = self.hearing.scene();
        let place = Place {
            scene,
            byte,
            line: line.saturating_sub(1),
        };
        tell_breach(alloc, output, self.asked.form, breach, place)?;
        if self.breaches == 0 {
            self.verdict = breach.verdict();
        }
        self.breaches = self.breaches.saturating_add(1);
        self.is_judging = false;
        Ok(())
    }

    /// Ends the line that was begun.
    pub fn end_line<W: Write>(&mut self, output: &mut W) -> Result<(), ReportFault> {
        self.hearing.end_line(output)
    }

    /// Prints what the trace up to a moment is, unless its one breach said so. Whether it is a session, and else who broke it first.
    pub fn conclude<W: Write>(
        &self,
        alloc: Global,
        moment: u64,
        output: &mut W,
    ) -> Result<Verdict, ReportFault> {
        let form = self.asked.form;
        match (self.breaches, self.asked.extent) {
            (0, _) => tell_session(alloc, output, form, moment)?,
            (count, Extent::All) => tell_breaches(alloc, output, form, count, moment)?,
            (_, Extent::FirstBreach) => {}
        }
        Ok(self.verdict)
    }
}
