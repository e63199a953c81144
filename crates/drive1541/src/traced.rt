//! Running a script, and writing its trace as it comes.

use crate::arguments::{Arguments, is_standard};
use crate::failure::{RunFailure, Stream};
use crate::noted::Noted;
use crate::program::options_of;
use bus_traces::{Picture, Recorder, TraceForm};
use cbm_iec::{Event, Who};
use cbm_program::{self, DirectOptions, Half, RunFault, Watches, run_direct, run_watched};
use either::Either;
use std::io::{BufWriter, Printer, Read, Write};
use std::rt::{Files, Runtime};
use std::{env, fs, io};

/// How wide a picture is if the terminal doesn't say.
const COLUMNS: usize = 80;

/// What writes to standard output.
type Standard<'a, R> = BufWriter<Printer<'a, R>>;

/// What writes a trace: to a file, or to standard output. The recorder gathers what it writes.
type Target<'a, R> = Either<<R as Files>::File, Printer<'a, R>>;

/// What the trace of a run is written to, and why that failed first, if it did.
#[derive(Drop)]
struct Tracer<F, S> {
    recorder: Option<Recorder<F>>,
    picture: Option<Picture<S>>,
    moment: u64,
    failed: Option<(Stream, io::ErrorKind)>,
}

impl<F: Write, S: Write> Tracer<F, S> {
    /// Keeps the first failure.
    fn note(&mut self, written: io::Result<()>, stream: Stream) {
        if let Err(error) = written {
            self.failed = self.failed.or(Some((stream, error.kind())));
        }
    }

    fn record(&mut self, event: Event) -> io::Result<()> {
        match &mut self.recorder {
            Some(recorder) => recorder.event(event),
            None => Ok(()),
        }
    }

    fn draw(&mut self, event: Event) -> io::Result<()> {
        match &mut self.picture {
            Some(picture) => picture.event(event),
            None => Ok(()),
        }
    }

    /// Writes the rest of the trace. Returns the first file that couldn't be written, and the reason.
    fn end(&mut self) -> Option<(Stream, io::ErrorKind)> {
        let moment = self.moment;
        let recorded = match &mut self.recorder {
            Some(recorder) => recorder.end(moment),
            None => Ok(()),
        };
        self.note(recorded, Stream::Trace);
        let drawn = match &mut self.picture {
            Some(picture) => picture.end(),
            None => Ok(()),
        };
        self.note(drawn, Stream::Output);
        self.failed
    }
}

impl<F: Write, S: Write> Watches for Tracer<F, S> {
    // After a failure nothing more is written.
    fn event(&mut self, event: Event) {
        if self.failed.is_some() {
            return;
        }
        self.moment = event.change.moment;
        let recorded = self.record(event);
        self.note(recorded, Stream::Trace);
        let drawn = self.draw(event);
        self.note(drawn, Stream::Output);
    }

    fn half(&mut self, half: Half) {
        for change in half.changes().as_slice() {
            self.event(Event {
                who: Who::Drive(half.device),
                change: *change,
            });
        }
    }
}

/// The form of a trace by its file's name.
fn form_of(name: &str) -> TraceForm {
    if name.ends_with(".vcd") {
        TraceForm::Vcd
    } else {
        TraceForm::Lines
    }
}

/// A buffer before standard output.
fn standard<R: Runtime + AllocGlobal>(rt: &R) -> io::Result<Standard<'_, R>> {
    BufWriter::new(rt.alloc(), io::writer(rt))
}

/// The beginning of a trace in a file.
fn recorder<'a, R: Runtime + AllocGlobal>(
    rt: &'a R,
    name: &str,
    device: u8,
) -> io::Result<Recorder<Target<'a, R>>> {
    let target = if is_standard(name) {
        Either::Right(io::writer(rt))
    } else {
        Either::Left(fs::create(rt, name)?)
    };
    Recorder::begin(target, form_of(name), &[device])
}

/// How many columns the terminal has: what COLUMNS says, if it says something.
fn columns<R: Runtime + AllocGlobal>(rt: &R) -> usize {
    match env::var(rt, "COLUMNS") {
        Ok(text) => text.as_str().parse::<usize>().unwrap_or(COLUMNS),
        Err(_) => COLUMNS,
    }
}

/// Before the first event of what the command line asks for.
fn begin<'a, R: Runtime + AllocGlobal>(
    rt: &'a R,
    arguments: &Arguments<'_>,
) -> Result<Tracer<Target<'a, R>, Standard<'a, R>>, RunFailure> {
    let recorder = match arguments.trace {
        None => None,
        Some(name) => match recorder(rt, name, arguments.device) {
            Ok(recorder) => Some(recorder),
            Err(error) => return Err(RunFailure::of_file(error, Stream::Trace)),
        },
    };
    let picture = if arguments.is_drawn {
        let output = standard(rt).map_err(|_| RunFailure::NoMemory)?;
        Some(Picture::new(output, columns(rt)))
    } else {
        None
    };
    Ok(Tracer {
        recorder,
        picture,
        moment: 0,
        failed: None,
    })
}

/// Runs a script whose events are watched, on a drive with direct access if that is asked for.
fn run_traced<R: Runtime + AllocGlobal, S: Read, W: Write, T: Watches>(
    rt: &R,
    script: &mut Noted<S>,
    output: &mut W,
    watcher: &mut T,
    image: &[u8],
    arguments: &Arguments<'_>,
) -> Result<Vec<u8>, RunFault> {
    let options = options_of(arguments);
    match arguments.direct {
        Some(access) => {
            let direct = DirectOptions { access, options };
            run_direct(rt.alloc(), script, output, watcher, image, &direct)
        }
        None => run_watched(rt.alloc(), script, output, watcher, image, &options),
    }
}

/// Runs a script, and writes its trace if one is asked for. What was traced before a fault is written too.
pub fn run<R: Runtime + AllocGlobal, S: Read, W: Write>(
    rt: &R,
    script: &mut Noted<S>,
    output: &mut W,
    image: &[u8],
    arguments: &Arguments<'_>,
) -> Result<Vec<u8>, RunFailure> {
    let options = options_of(arguments);
    if !arguments.is_traced() && arguments.direct.is_none() {
        return cbm_program::run(rt.alloc(), script, output, image, &options).map_err(
            RunFailure::of_run,
        );
    }
    let mut tracer = begin(rt, arguments)?;
    let ended = run_traced(rt, script, output, &mut tracer, image, arguments);
    let untraced = tracer.end();
    let saved = ended.map_err(RunFailure::of_run)?;
    match untraced {
        None => Ok(saved),
        Some((stream, kind)) => Err(RunFailure::of_file(io::Error::from(kind), stream)),
    }
}
