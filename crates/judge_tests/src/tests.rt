//! The judge by its calls (judge), and what is said of a trace of the parties (reports) and of the wires (wires).

mod judge;
mod reports;
mod wires;
