//! A drive with the disk of an image, played under a list of timed changes in one call.
ghost use Rattle.std.specs.Prelude.{◌≡◌, ◌≤◌, ◌<◌, ◌^◌, ◌++◌, ◌⊎◌, ℕ, List, Err, None, Some, length, map, drop, OnOk, IfOk, IfErr, MatchResult};
ghost use Rattle.cbm_device.specs.Answers.{answer};
ghost use Rattle.cbm_device.specs.ImageDisks.{IsImageIn};
ghost use Rattle.yellowadze1541.specs.Drives.{party_from};
ghost use Rattle.yellowadze1541.specs.Signals.{line_with, way_with, change_of, changes_of, number_of_line, number_of_way, number_of_who, signal_of};
ghost use Rattle.yellowadze1541.specs.Plays.{rooms, HandsOut, IsSignalPlay, IsUnplayed, PlaysAll};

use crate::drives::pace_with;
use crate::shapes::Signal;
use cbm_device::{DeviceRefusal, ImageDisk, number, play};
use cbm_drive::{Change, Channels, Event, Line, Party, Way, Who};
use cbm_iec::{DEVICES, SLOWEST_REACTION};
use cbm_image::{Kind, kind_of};
use std::alloc::Global;

/// Ends come before this one, in microseconds.
const LAST_END: u64 = 1 << 59;

/// The line of a number.
fn line_with(number: u8) -> Option<Line>
    ensures { result ≡ line_with number }
{
    match number {
        0 => Some(Line::Atn),
        1 => Some(Line::Clock),
        2 => Some(Line::Data),
        _ => None,
    }
}

/// Which way a line goes.
fn way_with(low: u8) -> Way
    ensures { result ≡ way_with low }
{
    match low {
        0 => Way::Free,
        _ => Way::Pull,
    }
}

/// The change that a signal asks for.
fn change_of(signal: &Signal) -> Option<Change>
    ensures { result ≡ change_of signal.now }
{
    let line = line_with(signal.line)?;
    Some(Change {
        moment: signal.moment,
        line,
        way: way_with(signal.low),
    })
}

/// The changes that signals ask for. Errors: `Invalid` if a line is none, `Memory`.
fn changes_of(alloc: Global, signals: &[Signal]) -> Result<Vec<Change>, DeviceRefusal>
    ensures ok { IfOk result (λ v. changes_of signals.now ≡ Some v.items) }
    ensures err { IfErr result (λ r. ((r ≡ DeviceRefusal.Invalid) × (changes_of signals.now ≡ None)) ⊎ (r ≡ DeviceRefusal.Memory)) }
{
    let mut changes = Vec::new(alloc);
    let mut rest = signals;
    'signals: while let Some((signal, more)) = rest.split_first() {
        let Some(change) = change_of(signal) else {
            return Err(DeviceRefusal::Invalid);
        };
        if changes.push(change).is_err() {
            return Err(DeviceRefusal::Memory);
        }
        rest = more;
    }
    Ok(changes)
}

/// The number of a line.
fn number_of_line(line: Line) -> u8
    ensures { result ≡ number_of_line line }
{
    match line {
        Line::Atn => 0,
        Line::Clock => 1,
        Line::Data => 2,
    }
}

/// The number of a way.
fn number_of_way(way: Way) -> u8
    ensures { result ≡ number_of_way way }
{
    match way {
        Way::Free => 0,
        Way::Pull => 1,
    }
}

/// The number of who changed a line.
fn number_of_who(who: Who) -> u8
    ensures { result ≡ number_of_who who }
{
    match who {
        Who::Host => 0,
        Who::Drive(device) => device,
    }
}

/// An event as C is told of it.
fn signal_of(event: &Event) -> Signal
    ensures { result ≡ signal_of event.now }
{
    let change = event.change;
    Signal {
        moment: change.moment,
        who: number_of_who(event.who),
        line: number_of_line(change.line),
        low: number_of_way(change.way),
    }
}

/// Events as C is told of them. The one error is `Memory`.
fn signals_of(alloc: Global, events: &[Event]) -> Result<Vec<Signal>, DeviceRefusal>
    ensures ok { IfOk result (λ v. v.items ≡ map signal_of events.now) }
    ensures err { IfErr result (λ r. r ≡ DeviceRefusal.Memory) }
{
    let mut signals = Vec::new(alloc);
    let mut rest = events;
    'events: while let Some((event, more)) = rest.split_first() {
        if signals.push(signal_of(event)).is_err() {
            return Err(DeviceRefusal::Memory);
        }
        rest = more;
    }
    Ok(signals)
}

/// What was played goes to the caller's rooms, if both are large enough. The one error is `NoRoom`, and then nothing goes there.
fn hand_over(
    signals: &[Signal],
    image: &[u8],
    out: &mut [Signal],
    after: &mut [u8],
) -> Result<(), DeviceRefusal>
    ensures events { OnOk result (out.new ≡ signals.now ++ drop (length signals.now) out.old) }
    ensures image { OnOk result (after.new ≡ image.now ++ drop (length image.now) after.old) }
    ensures err { IfErr result (λ r. (r ≡ DeviceRefusal.NoRoom) × (out.new ≡ out.old) × (after.new ≡ after.old)
        × ((length out.old < length signals.now) ⊎ (length after.old < length image.now))) }
{
    if out.len() < signals.len() || after.len() < image.len() {
        return Err(DeviceRefusal::NoRoom);
    }
    out[..signals.len()].copy_from_slice(signals);
    after[..image.len()].copy_from_slice(image);
    Ok(())
}

/// A drive is switched on with the disk of an image and played under the changes that these signals ask for. Errors: `Invalid`, if
/// a line is none or a change goes back in time or comes after the end; `NoImage`, `Memory`.
fn played(
    alloc: Global,
    image: &[u8],
    party: Party,
    signals: &[Signal],
    end: u64,
    events: &mut Vec<Event>,
) -> Result<ImageDisk, DeviceRefusal>
    requires device { party.device < 31 }
    requires reaction { 1 ≤ party.reaction }
    requires end { end < 2 ^ 59 }
    ensures { MatchResult result
        (λ disk. IsSignalPlay image.now party signals.now end events.old.items events.new.items disk)
        (IsUnplayed image.now signals.now end) }
{
    let changes = changes_of(alloc, signals)?;
    let disk = ImageDisk::open(alloc, image, false)?;
    let channels = Channels::new(alloc)?;
    play(disk, channels, party, changes.as_slice(), end, events)
}

/// What was played is reported: how many events and bytes there are, and all of them, if the caller's rooms are large enough. Errors:
/// `NoRoom`; `Memory`, and then nothing is.
fn told(
    alloc: Global,
    disk: &ImageDisk,
    kind: Kind,
    events: &[Event],
    out: &mut [Signal],
    count: &mut usize,
    after: &mut [u8],
    needed: &mut usize,
) -> Result<(), DeviceRefusal>
    ensures { let old = rooms out.old count.old after.old needed.old in let new = rooms out.new count.new after.new needed.new in
        ((bytes : List ℕ) × IsImageIn kind disk.now bytes × HandsOut (answer result) events.now bytes old new)
        ⊎ ((result ≡ Err DeviceRefusal.Memory) × (new ≡ old)) }
{
    let signals = signals_of(alloc, events)?;
    let image = disk.save(alloc, kind)?;
    *count = signals.len();
    *needed = image.len();
    hand_over(signals.as_slice(), image.as_slice(), out, after)
}

/// A drive is switched on with the disk of an image, and played under these changes of the host up to an end: all events in order, the host's
/// and the drive's, and the image as it is then.
#[unsafe(no_mangle)]
pub extern "C" fn y1541_play(
    alloc: Global,
    image: &[u8],
    device: u8,
    reaction: u8,
    pace: u8,
    changes: &[Signal],
    end: u64,
    out: &mut [Signal],
    count: &mut usize,
    after: &mut [u8],
    needed: &mut usize,
) -> i32
    ensures { PlaysAll result image.now (party_from device reaction pace) pace changes.now end
        (rooms out.old count.old after.old needed.old) (rooms out.new count.new after.new needed.new) }
{
    if device < DEVICES.0
        || device > DEVICES.1
        || reaction < 1
        || reaction > SLOWEST_REACTION
        || pace > 1
        || end >= LAST_END
    {
        return DeviceRefusal::Invalid.number();
    }
    let pace = pace_with(pace);
    let party = Party {
        device,
        reaction,
        pace,
    };
    let mut events = Vec::new(alloc);
    match played(alloc, image, party, changes, end, &mut events) {
        Ok(disk) => number(told(
            alloc,
            &disk,
            kind_of(image),
            events.as_slice(),
            out,
            count,
            after,
            needed,
        )),
        Err(refusal) => refusal.number(),
    }
}
