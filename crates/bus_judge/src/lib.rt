//! A judge of traces of the serial bus: event by event, whether a session goes on, and what broke it.
#![tactic(auto)]

mod bound;
mod breach;
mod drives;
mod fits;
mod frame;
mod guess;
mod judge;
mod parts;
mod point;
mod same;
mod seat;
mod step;
mod trying;
mod varied;
mod whole;

pub use bound::{Bound, Broken, Limit, Since};
pub use breach::{Breach, Cause, Verdict, line_name, way_name};
pub use drives::NotABus;
pub use judge::{Due, Judge, Scene, Turn};
pub use step::{Mark, Step};
pub use varied::{Range, Taken, VariedJudge};
