//! How far a long command has come.
use std::io::IsTerminal;
use std::rt::Runtime;
use std::time::{Duration, Instant};

/// A command that takes no longer than this many milliseconds reports nothing.
const QUIET: u64 = 500;

/// Shows people at a terminal how far a command has come, where it takes long.
#[derive(Clone, Copy, Drop)]
pub struct Progress {
    // None where nobody watches.
    begun: Option<Instant>,
    is_coloured: bool,
}

impl Progress {
    /// From now on, if standard error is a terminal.
    pub fn begin(rt: &HostRuntime) -> Progress {
        let begun = if rt.stderr().is_terminal() {
            Instant::now(rt).ok()
        } else {
            None
        };
        let is_coloured = rt.stdout().is_terminal();
        Progress { begun, is_coloured }
    }

    /// Whether what is printed goes to a terminal, which has colours.
    pub fn is_coloured(&self) -> bool {
        self.is_coloured
    }

    /// Whether somebody watches, and has waited for long.
    fn is_due<R: Runtime>(&self, rt: &R) -> bool {
        match self.begun {
            Some(begun) => match begun.elapsed(rt) {
                Ok(since) => since > Duration::from_millis(QUIET),
                Err(_) => false,
            },
            None => false,
        }
    }

    /// Shows how many of the files are done. What is printed next stands over it.
    pub fn tell<R: Runtime>(&self, rt: &R, done: usize, count: usize) {
        if self.is_due(rt) {
            let _ = eprint!(rt; "{done} of {count} files\r");
        }
    }

    /// Takes away what was shown last.
    pub fn clear<R: Runtime>(&self, rt: &R) {
        if self.is_due(rt) {
            let _ = eprint!(rt; "                        \r");
        }
    }
}
