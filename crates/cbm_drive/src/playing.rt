//! Changes of a host are played on a bus: the events come one after the other.

ghost use Rattle.std.specs.Prelude.{◌≡◌, ◌+◌, ◌≤◌, ◌<◌, ◌^◌, ◌++◌, ◌∷◌, OnOk, vec_len, vec_capacity};
ghost use Rattle.cbm_drive.specs.Ordered.{AreOrdered};
ghost use Rattle.cbm_drive.specs.Players.{IsOpen, nothing_left, pending};
ghost use Rattle.cbm_drive.specs.Seats.{AreInTime, AreCarried};
ghost use Rattle.cbm_drive.specs.Turning.{AddsChange, AddsRest, PlaysThrough};

use crate::bus::Bus;
use crate::player::Player;
use cbm_iec::{Change, Event, Machine, Who};
use std::alloc::AllocError;

/// The most changes of one reaction: one of CLOCK, then one of DATA.
const MOST: usize = 2;

/// An event goes to the list, which has room for it, and after it the second one of its reaction.
fn add(player: &mut Player, event: Event, events: &mut Vec<Event>)
    requires { vec_len events.old + 2 ≤ vec_capacity events.old }
    ensures events { events.new.items ≡ events.old.items ++ event ∷ pending player.old.second }
    ensures player { player.new ≡ nothing_left player.old }
{
    events.push_reserved(event);
    if let Some(second) = player.second() {
        events.push_reserved(second);
    }
}

/// The host's next change, and the reactions that are due before it: all go to the events. An `Err` is want of memory,
/// before a step: up to it all has happened, and is among the events.
fn play_change<D: Machine, const N: usize>(
    player: &mut Player,
    bus: &mut Bus<D, N>,
    change: Change,
    events: &mut Vec<Event>,
) -> Result<(), AllocError>
    requires open { IsOpen player.old change.moment }
    requires moment { change.moment < 2 ^ 59 }
    ensures open { OnOk result (IsOpen player.new change.moment) }
    ensures added { AddsChange _ D.State D.stands D.step D.says D.failures player.old player.new bus.old bus.new
        events.old.items events.new.items change result }
    ensures carried { AreCarried D.lasting D.failures bus.old.drives bus.new.drives }
{
    player.take(change);
    'events: loop {
        events.reserve(MOST)?;
        let Some(event) = player.next(bus, change.moment) else {
            return Ok(());
        };
        add(player, event, events);
        if let Who::Host = event.who {
            return Ok(());
        }
    }
}

/// What is due up to an end: it goes to the events. An `Err` is want of memory, as in `play_change`.
fn play_out<D: Machine, const N: usize>(
    player: &mut Player,
    bus: &mut Bus<D, N>,
    end: u64,
    events: &mut Vec<Event>,
) -> Result<(), AllocError>
    requires open { IsOpen player.old (end + 1) }
    requires end { end < 2 ^ 59 }
    ensures settled { OnOk result (AreInTime (end + 1) bus.new.drives) }
    ensures from { player.new.from ≤ end + 1 }
    ensures added { AddsRest _ D.State D.stands D.step D.says D.failures player.old player.new bus.old bus.new
        events.old.items events.new.items }
    ensures carried { AreCarried D.lasting D.failures bus.old.drives bus.new.drives }
{
    'events: loop {
        events.reserve(MOST)?;
        let Some(event) = player.finish(bus, end) else {
            return Ok(());
        };
        add(player, event, events);
    }
}

/// The changes of the host and the reactions of the drives come one after the other, up to an end; all go to the events.
/// An `Err` is want of memory, before a step: up to it all has happened, and is among the events.
pub(crate) fn play_on<D: Machine, const N: usize>(
    bus: &mut Bus<D, N>,
    changes: &[Change],
    end: u64,
    events: &mut Vec<Event>,
) -> Result<(), AllocError>
    requires end { end < 2 ^ 59 }
    requires ordered { AreOrdered 0 end changes.now }
    ensures settled { OnOk result (AreInTime (end + 1) bus.new.drives) }
    ensures carried { AreCarried D.lasting D.failures bus.old.drives bus.new.drives }
    ensures played { PlaysThrough _ D.State D.stands D.step D.says D.failures bus.old bus.new (end + 1) events.old.items
        events.new.items changes.now result }
{
    let mut player = Player::new();
    for change in changes {
        play_change(&mut player, bus, *change, events)?;
    }
    play_out(&mut player, bus, end, events)
}
