//! What the judge says of a trace, in words.
#![tactic(auto)]

mod bench;
mod course;
mod fault;
mod hearing;
mod held;
mod report;
mod seats;
mod teller;
mod told;

pub use bus_judge::{Range, Verdict};
pub use fault::ReportFault;
pub use hearing::Timing;
pub use report::{Asked, Extent, Judged, judge_trace};
pub use seats::{Seat, seat_of};
pub use teller::Form;
