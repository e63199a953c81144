//! Laws of the definitions, each the contract of a function with nothing to do.

ghost use Rattle.cbm_session.specs.Joins.{JoinsItsParts, IsOnlyJoin};
ghost use Rattle.cbm_session.specs.Buses.{FollowsBuses};
ghost use Rattle.cbm_session.specs.Following.{FollowsPieces, FollowsFronts, FollowsSessions};
ghost use Rattle.cbm_session.specs.Laws.{OnePulse, PulseEnds, ListenersAccepted, DrivesAccepted, CommandsGoInParts, BytesGoInParts, SessionsGoOn, OneReading, FrontsKeep, FrontsInTime};
ghost use Rattle.cbm_session.specs.Playing.{KeepsSessions};
ghost use Rattle.cbm_session.specs.Handed.{HearsOne, HandsEach};
ghost use Rattle.cbm_session.specs.Loosely.{KeepsLoosely, TidyIsLoose};
ghost use Rattle.cbm_session.specs.Rows.{ListenOwn, ListenOther, TalkCut, TalkCutEarly, TwoListeners, Ties98, Ties89, BesideAListener, SilentBeside};

use cbm_iec::Machine;

/// The events of a piece are the only join of its parts.
pub fn is_joined()
    ensures joins { JoinsItsParts }
    ensures only { IsOnlyJoin }
{}

/// The pulses of listeners are one pulse on the wire.
pub fn is_one_pulse()
    ensures one { OnePulse }
    ensures ends { PulseEnds }
{}

/// Each that hears a frame has accepted before the host may go on.
pub fn has_accepted()
    ensures listeners { ListenersAccepted }
    ensures drives { DrivesAccepted }
{}

/// A frame of the host to any number of drives: CLOCK is freed, all let go of DATA, then come the pulses, the bits
/// and the accepts.
pub fn goes_in_parts()
    ensures commands { CommandsGoInParts }
    ensures bytes { BytesGoInParts }
{}

/// Sessions by numbers: their events, and what each drive was told.
pub fn rows()
    ensures listen_own { ListenOwn }
    ensures listen_other { ListenOther }
    ensures talk_cut { TalkCut }
    ensures talk_cut_early { TalkCutEarly }
    ensures two_listeners { TwoListeners }
    ensures ties_9_8 { Ties98 }
    ensures ties_8_9 { Ties89 }
    ensures beside_a_listener { BesideAListener }
    ensures silent_beside { SilentBeside }
{}

/// A session's moments never go back, and at one moment the host's changes come before the drives'.
pub fn goes_on()
    ensures { SessionsGoOn }
{}

/// A trace has only one reading: what each drive was told is determined by the events on the wires.
pub fn one_reading()
    ensures { OneReading }
{}

/// A host whose changes are those of a session, with no further one up to an end, keeps the timing up to there; and
/// if then no drive owes a change, none was late.
pub fn keeps_timing()
    ensures host { FrontsKeep }
    ensures drives { FrontsInTime }
{}

/// A drive alone with the host, in the state that a session prescribes: given the host's events of any piece that may
/// come next, it makes exactly its own events and acts of that piece, and is then in the state after it.
pub fn follows_pieces()
    ensures { FollowsPieces }
{}

/// The same up to each moment before a piece's last event: what stands before is made, and nothing is overdue.
pub fn follows_fronts()
    ensures { FollowsFronts }
{}

/// From rest a drive alone with the host follows every session, cut pieces too: its trace is the session's, and the
/// acts are those that count.
pub fn follows_sessions()
    ensures { FollowsSessions }
{}

/// From rest each of one to four unlike drives on a bus follows every session among the host and the other drives,
/// cut pieces too, whatever its reaction and theirs are (1 to 60 microseconds) and in any order of ties: its part of
/// the trace is the session's, it is told what counts for it, and at each point of the session it stands with the
/// role, the lines and the next reaction that the session gives it.
pub fn follows_buses()
    ensures { FollowsBuses }
{}

/// What a drive hears is a function of what the host and the other drives do on the wires: no machine has a part in it.
pub fn hears_one()
    ensures { HearsOne }
{}

/// Under any changes of the host, timing kept or not, the machine of each drive on a bus has run exactly the acts that
/// the wires handed to it, and each byte that it said was the one that it had to say at that time.
pub fn hands_each<D: Machine>()
    ensures { HandsEach D.State D.step D.says }
{}

/// From rest one to four unlike drives on a bus, whatever machine stands above each, whatever their reactions are (1 to
/// 60 microseconds) and in any order of ties, keep to a session under every host that keeps the bus's timing: the trace
/// is a beginning of one in which each byte talked is the machine's answer to the bytes sent, each machine ran exactly
/// the acts that count in it, and no reaction is late.
pub fn keeps_sessions<D: Machine>()
    ensures { KeepsSessions D.State D.step D.says }
{}

/// The same under a host that keeps the timing loosely, as a computer's KERNAL does: its changes of CLOCK and DATA may
/// come otherwise than a session says wherever no drive heeds them. Beside its trace there is a session with the same
/// events of the drives, and the machines are the same in the end. A host that keeps the timing keeps it so, too.
pub fn keeps_loosely<D: Machine>()
    ensures keeps { KeepsLoosely D.State D.step D.says }
    ensures tidy { TidyIsLoose D.State D.step D.says }
{}
