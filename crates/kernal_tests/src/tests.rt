//! The computer (cycles, cable, host), its routines (addressing, sending, taking), what a program has it do (jobs), and how that
//! goes (sessions, failures).

mod addressing;
mod cable;
mod cycles;
mod disks;
mod failures;
mod host;
mod jobs;
mod plain;
mod sending;
mod sessions;
mod taking;
