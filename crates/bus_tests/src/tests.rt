//! The reader (reading, steps, bits, talks, judge), the play of a bus, the worked and generated sessions, and their wires alone.

mod attentions;
mod bits;
mod bounds;
mod decided;
mod judge;
mod paces;
mod phase;
mod plays;
mod reading;
mod rows;
mod sessions;
mod steps;
mod talks;
mod traces;
mod verdicts;
mod wired;
