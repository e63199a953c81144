//! Traces of either form, written event by event.
ghost use Rattle.std.specs.Prelude.{◌≡◌, ◌≤◌, ◌++◌, [], length, OnOk};
ghost use Rattle.std.specs.Io.KnownBytes.{Appends, Keeps};
ghost use Rattle.bus_traces.specs.Cables.{after};
ghost use Rattle.bus_traces.specs.Records.{record_event, events_recorded, recorded_by, end_text};

use crate::cable::Cable;
use crate::event::put_event;
use crate::vcd::dumping::{dump_event, put_time};
use arrayvec::ArrayVec;
use cbm_iec::Event;
use std::io;
use std::io::Write;

/// What a trace is written as.
#[derive(Clone, Copy, Debug, PartialEq, Eq, Drop)]
pub enum TraceForm {
    /// A line for each event, `MOMENT WHO LINE WAY`.
    Lines,
    /// A Value Change Dump, at one microsecond.
    Vcd,
}

/// How many bytes are handed on at once, at most.
const MOST: usize = 4096;

/// How many of them an event may take.
const ROOM: usize = 48;

/// Writes a trace, event by event, many of them at once. It takes no memory, however long the trace is.
#[derive(Drop)]
pub struct Recorder<W> {
    writer: W,
    form: TraceForm,
    cable: Cable,
    moment: u64,
    // What was not yet handed on.
    text: ArrayVec<u8, MOST>,
}

/// The beginning of a VCD: its scale, the wires, and the host's own lines.
const HEAD: &str =
    "$comment Serial bus: 0 is pulled, 1 is free; a wire is 0 while any party pulls it $end
$timescale 1 us $end
$scope module bus $end
$var wire 1 a atn $end
$var wire 1 c clk $end
$var wire 1 d data $end
$scope module host $end
$var wire 1 ha host_atn $end
$var wire 1 hc host_clk $end
$var wire 1 hd host_data $end
$upscope $end
";

/// What stands after the parties, before their first values.
const BODY: &str = "$upscope $end
$enddefinitions $end
#0
$dumpvars
1a
1c
1d
1ha
1hc
1hd
";

impl<W: Write> Recorder<W> {
    /// Before the first event of a trace of this form, of a bus with the drives of these numbers: a VCD's header is written.
    pub fn begin(mut writer: W, form: TraceForm, drives: &[u8]) -> io::Result<Recorder<W>>
    where
        W: Drop,
    {
        if let TraceForm::Vcd = form {
            write_header(&mut writer, drives)?;
        }
        Ok(Recorder {
            writer,
            form,
            cable: Cable::free(),
            moment: 0,
            text: ArrayVec::new(),
        })
    }

    /// Writes an event, which doesn't come before the last one. It may wait, until others come or the end. Error: why what waited
    /// couldn't be handed on; it is then lost.
    pub fn event(&mut self, event: Event) -> io::Result<()>
        ensures written { OnOk result (Appends (recorded_by W.contents self.old) (recorded_by W.contents self.new)
            (record_event self.old.form self.old.moment self.old.cable event)) }
        ensures cable { self.new.cable ≡ after event self.old.cable }
        ensures moment { self.new.moment ≡ event.change.moment }
        ensures form { self.new.form ≡ self.old.form }
    {
        let handed = self.make_room();
        let last = self.moment;
        self.moment = event.change.moment;
        match self.form {
            TraceForm::Lines => {
                self.cable.change(event);
                put_event(&mut self.text, event);
            }
            TraceForm::Vcd => dump_event(&mut self.text, last, &mut self.cable, event),
        }
        handed
    }

    /// Writes events, none of which comes before the one before.
    pub fn events(&mut self, events: &[Event]) -> io::Result<()>
        ensures written { OnOk result (Appends (recorded_by W.contents self.old) (recorded_by W.contents self.new)
            (events_recorded self.old.form self.old.moment self.old.cable events.now)) }
        ensures form { self.new.form ≡ self.old.form }
    {
        for event in events {
            self.event(*event)?;
        }
        Ok(())
    }

    /// Writes the moment at which the trace ended, if it is a VCD, and sends all on.
    pub fn end(&mut self, moment: u64) -> io::Result<()>
        ensures { OnOk result (Appends (recorded_by W.contents self.old) (W.contents self.new.writer)
            (end_text self.old.form self.old.moment moment)) }
    {
        self.make_room()?;
        self.put_end(moment);
        self.hand_on()?;
        self.writer.flush()
    }

    /// Hands on what waits.
    fn hand_on(&mut self) -> io::Result<()>
        ensures kept { OnOk result (Keeps (recorded_by W.contents self.old) (W.contents self.new.writer)) }
        ensures text { self.new.text.items ≡ [] }
        ensures cable { self.new.cable ≡ self.old.cable }
        ensures moment { self.new.moment ≡ self.old.moment }
        ensures form { self.new.form ≡ self.old.form }
    {
        let handed = self.writer.write_all(self.text.as_slice());
        self.text.clear();
        handed
    }

    /// Hands on what waits, if there isn't room for an event more.
    fn make_room(&mut self) -> io::Result<()>
        ensures kept { OnOk result (Keeps (recorded_by W.contents self.old) (recorded_by W.contents self.new)) }
        ensures room { length self.new.text.items ≤ 4048 }
        ensures cable { self.new.cable ≡ self.old.cable }
        ensures moment { self.new.moment ≡ self.old.moment }
        ensures form { self.new.form ≡ self.old.form }
    {
        if self.text.len() + ROOM > MOST {
            return self.hand_on();
        }
        Ok(())
    }

    /// Puts what ends a trace at a moment.
    fn put_end(&mut self, moment: u64)
        requires { length self.old.text.items ≤ 4048 }
        ensures text { self.new.text.items ≡ self.old.text.items ++ end_text self.old.form self.old.moment moment }
        ensures writer { self.new.writer ≡ self.old.writer }
    {
        match self.form {
            TraceForm::Lines => {}
            TraceForm::Vcd => {
                if moment > self.moment {
                    put_time(&mut self.text, self.moment, moment);
                }
            }
        }
    }
}

/// Writes a VCD's header, and the first values: all lines are free.
fn write_header<W: Write>(writer: &mut W, drives: &[u8]) -> io::Result<()> {
    writer.write_all(HEAD.as_bytes())?;
    for drive in drives {
        let drive = *drive;
        writeln!(writer, "$scope module drive{drive} $end")?;
        writeln!(writer, "$var wire 1 {drive}a drive{drive}_atn $end")?;
        writeln!(writer, "$var wire 1 {drive}c drive{drive}_clk $end")?;
        writeln!(writer, "$var wire 1 {drive}d drive{drive}_data $end")?;
        writer.write_all(b"$upscope $end\n")?;
    }
    writer.write_all(BODY.as_bytes())?;
    for drive in drives {
        let drive = *drive;
        writeln!(writer, "1{drive}a\n1{drive}c\n1{drive}d")?;
    }
    writer.write_all(b"$end\n")
}
