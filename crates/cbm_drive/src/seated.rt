//! A drive's port, as bytes, and of bytes.
ghost use Rattle.std.specs.Prelude.{◌≡◌, ◌++◌, OnOk, option_map};
ghost use Rattle.cbm_drive.specs.Saved.{pace_number as number_of_pace, role_number as number_of_role, saved_port};
ghost use Rattle.cbm_drive.specs.Loaded.{pace_by as pace_with, role_by as role_with, port_at as port_in};

use crate::side::{flag, save_side, side_at};
use cbm_iec::{Held, Lines, Pace, Party, Port, Role};
use std::alloc::AllocError;

/// The number of a pace.
pub fn pace_number(pace: Pace) -> u8
    ensures { result ≡ number_of_pace pace }
{
    match pace {
        Pace::Profile => 0,
        Pace::Kernal => 1,
    }
}

/// The number of a role.
pub fn role_number(role: Role) -> u8
    ensures { result ≡ number_of_role role }
{
    match role {
        Role::Absent => 0,
        Role::Listener => 1,
        Role::Talker => 2,
    }
}

/// The pace of a number.
pub fn pace_by(number: u8) -> Pace
    ensures { result ≡ pace_with number }
{
    match number {
        0 => Pace::Profile,
        _ => Pace::Kernal,
    }
}

/// The role of a number.
pub fn role_by(number: u8) -> Role
    ensures { result ≡ role_with number }
{
    match number {
        1 => Role::Listener,
        2 => Role::Talker,
        _ => Role::Absent,
    }
}

/// Adds a drive's port.
pub fn save_port(out: &mut Vec<u8>, port: Port) -> Result<(), AllocError>
    ensures { OnOk result (out.new.items ≡ out.old.items ++ saved_port port) }
{
    let party = port.party;
    let own = port.own;
    let others = port.others;
    out.extend_from_slice(&[
        party.device,
        party.reaction,
        pace_number(party.pace),
        role_number(port.role),
        flag(own.clock_low),
        flag(own.data_low),
        flag(others.atn_low),
        flag(others.clock_low),
        flag(others.data_low),
    ])?;
    save_side(out, port.side)
}

/// The port that begins some bytes, and what follows it; None if it is none.
pub fn port_at(bytes: &[u8]) -> Option<(Port, &[u8])>
    ensures { option_map (λ x. (x.0, x.1.now)) result ≡ port_in bytes.now }
{
    let [
        device,
        reaction,
        pace,
        role,
        own_clock,
        own_data,
        atn,
        clock,
        line,
        rest @ ..,
    ] = bytes
    else {
        return None;
    };
    let (side, rest) = side_at(rest)?;
    let party = Party {
        device: *device,
        reaction: *reaction,
        pace: pace_by(*pace),
    };
    let own = Held {
        clock_low: *own_clock != 0,
        data_low: *own_data != 0,
    };
    let others = Lines {
        atn_low: *atn != 0,
        clock_low: *clock != 0,
        data_low: *line != 0,
    };
    let port = Port {
        party,
        role: role_by(*role),
        own,
        others,
        side,
    };
    Some((port, rest))
}
