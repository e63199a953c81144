//! A script whose events are handed on, and written.

use super::{READING, writable};
use crate::disks::{failed, report};
use bus_traces::{Recorder, TraceForm};
use cbm_iec::{Event, Who};
use cbm_program::{Half, Pace, Watches, run_watched};
use std::alloc::Global;
use std::io;
use std::io::Write;
use std::rt::Runtime;
use std::time::Instant;

/// Takes bytes, and keeps none.
#[derive(Drop)]
pub struct Nowhere;

impl Write for Nowhere {
    fn write(&mut self, buf: &[u8]) -> io::Result<usize> {
        Ok(buf.len())
    }

    fn flush(&mut self) -> io::Result<()> {
        Ok(())
    }
}

/// Counts events, and writes them if there is a recorder.
#[derive(Drop)]
struct Tracer {
    recorder: Option<Recorder<Nowhere>>,
    events: u32,
}

impl Watches for Tracer {
    fn event(&mut self, event: Event) {
        self.events = self.events.saturating_add(1);
        if let Some(recorder) = &mut self.recorder {
            let _ = recorder.event(event);
        }
    }

    fn half(&mut self, half: Half) {
        for change in half.changes().as_slice() {
            self.event(Event {
                who: Who::Drive(half.device),
                change: *change,
            });
        }
    }
}

/// Prints the time of an event of a script that reads a file of 664 blocks.
fn timed(
    rt: &impl Runtime,
    alloc: Global,
    name: &str,
    image: &[u8],
    tracer: Tracer,
) -> io::Result<()> {
    let mut tracer = tracer;
    let mut out: Vec<u8> = Vec::new(alloc);
    let start = Instant::now(rt)?;
    let ended = run_watched(
        alloc,
        READING.as_bytes(),
        &mut out,
        &mut tracer,
        image,
        &writable(Pace::Profile),
    );
    report(rt, name, &start, tracer.events)?;
    match ended {
        Ok(_) => Ok(()),
        Err(_) => Err(failed()),
    }
}

/// A recorder of this form.
fn of_form(form: TraceForm) -> io::Result<Tracer> {
    let recorder = Recorder::begin(Nowhere, form, &[8])?;
    Ok(Tracer {
        recorder: Some(recorder),
        events: 0,
    })
}

/// Events that are handed on alone, written as lines, and as a VCD.
pub fn events(rt: &impl Runtime, alloc: Global, image: &[u8]) -> io::Result<()> {
    let alone = Tracer {
        recorder: None,
        events: 0,
    };
    timed(rt, alloc, "an event of a script, handed on", image, alone)?;
    let lines = of_form(TraceForm::Lines)?;
    timed(rt, alloc, "the same, written as a line", image, lines)?;
    let vcd = of_form(TraceForm::Vcd)?;
    timed(rt, alloc, "the same, written in a VCD", image, vcd)
}
