// Which writes a disk refuses.

/// A stop: so many writes pass, then one is refused, or each from there on.
#[derive(Clone, Copy)]
pub struct Stop {
    pub passes: u32,
    pub all: bool,
}

impl Stop {
    /// All writes pass.
    pub const NEVER: Stop = Stop {
        passes: u32::MAX,
        all: false,
    };
}

/// Which writes of a step are refused.
#[derive(Clone, Copy)]
pub enum Refusals {
    None,
    At(Stop),
    /// Each one in turn, alone and with all after it.
    Each,
}

impl Refusals {
    /// What `refusing write 3`, `refusing writes from 3` and `refusing each write` say.
    pub fn of(words: &str) -> Option<Refusals> {
        let words = words.strip_prefix("refusing ")?;
        if words == "each write" {
            return Some(Refusals::Each);
        }
        let (number, all) = match words.strip_prefix("writes from ") {
            Some(number) => (number, true),
            None => (words.strip_prefix("write ")?, false),
        };
        let passes = number.parse::<u32>().ok()?.checked_sub(1)?;
        Some(Refusals::At(Stop { passes, all }))
    }
}
