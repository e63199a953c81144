//! A request carried out on the bus.

ghost use Rattle.std.specs.Prelude.{◌≡◌, ◌+◌, ◌<◌, ◌≤◌, ◌^◌, true, IfOk};
ghost use Rattle.cbm_iec.specs.declared.event.Event.{Event};
ghost use Rattle.cbm_session.specs.Seats.{at_pace};
ghost use Rattle.cbm_session.specs.Sessions.{IsDrive};
ghost use Rattle.cbm_drive.specs.Seats.{failed};
ghost use Rattle.cbm_drive.specs.declared.fault.PlayFault.TheVariants.{Memory};
ghost use Rattle.cbm_host.specs.Engines.{channel_of, engine_at};
ghost use Rattle.cbm_iec.specs.declared.pace.Pace.TheVariants.{Profile};
ghost use Rattle.cbm_iec.specs.declared.party.Party.{Party};
ghost use Rattle.cbm_host.specs.Progress.{left_of};
ghost use Rattle.cbm_host.specs.Requests.{longest};
ghost use Rattle.cbm_host.specs.Requested.{CarriesOutAt, CarriesOutAtProfile, KeepsMomentsUnfailed, LacksMemoryUnfailed, CarriesOutAnyway, RunsOut, RunsOutBack, Steps, StepsBack, IsCutOnTheWay};
ghost use Rattle.cbm_host.specs.Performed.{HasAddedUpTo};
ghost use Rattle.cbm_host.specs.AnyDisk.{IsAtRestAnyway};

use crate::done::Done;
use crate::performer::Performer;
use crate::request::Request;
use cbm_drive::{Bus, Event, Machine, Pace, PlayFault};
use std::alloc::{AllocError, Global};

/// Carries out a request on a bus with one drive, at rest and at the profile's pace: from its first change, at the start, to the
/// moment when it is over, at most 250,000,000 microseconds later. The events go to `events`. A request of more than 200,000
/// bytes may be given up at that moment. Error: want of memory, and then they are a beginning of what happened.
///
/// What is promised of the states that the machine represents holds if it didn't fail in it (`Unfailed`). Each change of the
/// host came at the moment that the request's stages say, and so did the end. On any disk a machine plays back what the drive
/// showed, and for that machine the request was carried out; whatever the machine represents, nothing happens after the end.
pub fn perform<D: Machine, const N: usize>(
    alloc: Global,
    bus: &mut Bus<D, N>,
    start: u64,
    device: u8,
    request: Request,
    events: &mut Vec<Event>,
) -> Result<Done, PlayFault>
    requires one { N ≡ 1 }
    requires start { start < 2 ^ 58 }
    requires device { device < 31 }
    requires channel { channel_of request ≤ 15 }
    ensures carried_out { CarriesOutAtProfile _ D.State D.stands D.step D.says D.failures device start request.entry
        bus.old bus.new events.old.items events.new.items result }
    ensures moments { KeepsMomentsUnfailed _ D.State D.stands D.step D.says D.failures
        (engine_at start device request.entry) (start + 250000000) bus.old bus.new events.old.items events.new.items result }
    ensures recorded { (v : Party) → let b = at_pace Profile v in IsDrive b → b.device ≡ device → IsAtRestAnyway D.shows b bus.old →
        CarriesOutAnyway D.shows b start request.entry bus.old bus.new events.old.items events.new.items result }
    ensures end { IfOk result (λ done. done.end ≤ start + 250000000) }
    ensures within { HasAddedUpTo (start + 250000000) events.old.items events.new.items }
    ensures counted { failed D.failures bus.old.drives ≤ failed D.failures bus.new.drives }
    ensures memory { LacksMemoryUnfailed _ D.State D.stands D.step D.says D.failures bus.old bus.new events.old.items
        events.new.items result }
{
    perform_at(alloc, Pace::Profile, bus, start, device, request, events)
}

/// The same of a drive at this pace: the request is over at most 250,000,000 microseconds later at the profile's, and
/// 320,000,000 at a KERNAL's. The one error is want of memory, as of `perform`.
pub fn perform_at<D: Machine, const N: usize>(
    alloc: Global,
    pace: Pace,
    bus: &mut Bus<D, N>,
    start: u64,
    device: u8,
    request: Request,
    events: &mut Vec<Event>,
) -> Result<Done, PlayFault>
    requires one { N ≡ 1 }
    requires start { start < 2 ^ 58 }
    requires device { device < 31 }
    requires channel { channel_of request ≤ 15 }
    ensures carried_out { CarriesOutAt _ D.State D.stands D.step D.says D.failures pace device start request.entry
        bus.old bus.new events.old.items events.new.items result }
    ensures moments { KeepsMomentsUnfailed _ D.State D.stands D.step D.says D.failures
        (engine_at start device request.entry) (start + longest pace) bus.old bus.new events.old.items events.new.items result }
    ensures recorded { (b : Party) → IsDrive b → b.device ≡ device → b.pace ≡ pace → IsAtRestAnyway D.shows b bus.old →
        CarriesOutAnyway D.shows b start request.entry bus.old bus.new events.old.items events.new.items result }
    ensures end { IfOk result (λ done. done.end ≤ start + longest pace) }
    ensures within { HasAddedUpTo (start + longest pace) events.old.items events.new.items }
    ensures counted { failed D.failures bus.old.drives ≤ failed D.failures bus.new.drives }
    ensures memory { LacksMemoryUnfailed _ D.State D.stands D.step D.says D.failures bus.old bus.new events.old.items
        events.new.items result }
{
    let mut performer = Performer::with_pace(start, device, request, pace);
    let mut done = Done {
        bytes: Vec::new(alloc),
        last: false,
        end: start,
    };
    match run(&mut performer, bus, events, &mut done) {
        Ok(()) => {
            done.end = performer.over();
            Ok(done)
        }
        Err(_) => Err(PlayFault::Memory),
    }
}

/// The events of a request up to its end. Error: want of memory.
fn run<D: Machine, const N: usize>(
    performer: &mut Performer,
    bus: &mut Bus<D, N>,
    events: &mut Vec<Event>,
    done: &mut Done,
) -> Result<(), AllocError>
    requires one { N ≡ 1 }
    ensures performed { RunsOut _ D.State D.stands D.step D.says D.failures performer.old performer.new bus.old bus.new
        events.old.items events.new.items done.old done.new result }
    ensures memory { IsCutOnTheWay _ D.State D.stands D.step D.says D.failures performer.old bus.old bus.new
        events.old.items events.new.items done.old result }
    ensures recorded { RunsOutBack D.shows performer.old performer.new bus.old bus.new events.old.items events.new.items
        done.old done.new result }
    ensures within { HasAddedUpTo performer.old.limit events.old.items events.new.items }
    ensures counted { failed D.failures bus.old.drives ≤ failed D.failures bus.new.drives }
    ensures limit { performer.new.limit ≡ performer.old.limit }
{
    'events: while step(performer, bus, events, done)? {}
    Ok(())
}

/// The next event of a request, and the byte that the host took with it. False if there is none. Error: want of memory.
fn step<D: Machine, const N: usize>(
    performer: &mut Performer,
    bus: &mut Bus<D, N>,
    events: &mut Vec<Event>,
    done: &mut Done,
) -> Result<bool, AllocError>
    requires one { N ≡ 1 }
    ensures performing { Steps _ D.State D.stands D.step D.says D.failures performer.old performer.new bus.old bus.new
        events.old.items events.new.items done.old done.new result }
    ensures memory { IsCutOnTheWay _ D.State D.stands D.step D.says D.failures performer.old bus.old bus.new
        events.old.items events.new.items done.old result }
    ensures recorded { StepsBack D.shows performer.old performer.new bus.old bus.new events.old.items events.new.items
        done.old done.new result }
    ensures within { HasAddedUpTo performer.old.limit events.old.items events.new.items }
    ensures counted { failed D.failures bus.old.drives ≤ failed D.failures bus.new.drives }
    ensures fewer { IfOk result (λ more. more ≡ true → left_of performer.new bus.new < left_of performer.old bus.old) }
    ensures limit { performer.new.limit ≡ performer.old.limit }
{
    let Some(event) = performer.next(bus) else {
        return Ok(false);
    };
    events.push(event)?;
    done.take(performer.byte())?;
    Ok(true)
}
