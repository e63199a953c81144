//! Whether two steps are the same, part by part.

ghost use Rattle.std.specs.Prelude.{◌≡◌, true};

use crate::step::{Mark, Step};
use cbm_iec::{Act, Change, Event, Line, Way, Who};

fn same_line(a: Line, b: Line) -> bool
    ensures { result ≡ true → a ≡ b }
{
    a == b
}

fn same_way(a: Way, b: Way) -> bool
    ensures { result ≡ true → a ≡ b }
{
    a == b
}

fn same_who(a: Who, b: Who) -> bool
    ensures { result ≡ true → a ≡ b }
{
    match (a, b) {
        (Who::Host, Who::Host) => true,
        (Who::Drive(one), Who::Drive(other)) => one == other,
        _ => false,
    }
}

fn same_change(a: Change, b: Change) -> bool
    ensures { result ≡ true → a ≡ b }
{
    a.moment == b.moment && same_line(a.line, b.line) && same_way(a.way, b.way)
}

/// Whether two events are the same.
pub fn same_event(a: Event, b: Event) -> bool
    ensures { result ≡ true → a ≡ b }
{
    same_who(a.who, b.who) && same_change(a.change, b.change)
}

fn same_act(a: Act, b: Act) -> bool
    ensures { result ≡ true → a ≡ b }
{
    match (a, b) {
        (Act::Pulled, Act::Pulled) => true,
        (Act::Attention(one), Act::Attention(other)) => one == other,
        (Act::Released, Act::Released) => true,
        (Act::Heard(one, eoi), Act::Heard(other, last)) => one == other && eoi == last,
        (Act::Said(one, eoi), Act::Said(other, last)) => one == other && eoi == last,
        (Act::Silent, Act::Silent) => true,
        _ => false,
    }
}

fn same_mark(a: Mark, b: Mark) -> bool
    ensures { result ≡ true → a ≡ b }
{
    match (a, b) {
        (Mark::Plain, Mark::Plain) => true,
        (Mark::ForEach(one), Mark::ForEach(other)) => same_act(one, other),
        (Mark::For(device, one), Mark::For(with, other)) => device == with && same_act(one, other),
        _ => false,
    }
}

/// Whether two steps are the same.
pub fn same_step(a: Step, b: Step) -> bool
    ensures { result ≡ true → a ≡ b }
{
    same_event(a.event, b.event) && same_mark(a.mark, b.mark)
}
