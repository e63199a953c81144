// What came otherwise than a file says.

use std::alloc::{AllocError, Global};

/// The lines that came otherwise, and how much was played.
#[derive(Drop)]
pub struct Report {
    alloc: Global,
    told: Vec<String>,
    cases: u32,
    steps: u32,
}

/// How many bytes two texts have in common at their beginnings.
fn common(text: &str, other: &str) -> usize {
    let mut same = 0usize;
    for (one, two) in text.bytes().zip(other.bytes()) {
        if one != two {
            break;
        }
        same = same.wrapping_add(1);
    }
    same
}

/// A piece of a text around the first place where it isn't the other.
fn piece(alloc: Global, text: &str, other: &str) -> Result<String, AllocError> {
    let from = match common(text, other) {
        0..60 => 0,
        same => same.wrapping_sub(20),
    };
    let mut out = String::from_str(alloc, if from > 0 { ".." } else { "" })?;
    for letter in text.chars().skip(from).take(100) {
        out.push(letter)?;
    }
    Ok(out)
}

impl Report {
    /// That of nothing.
    pub fn new(alloc: Global) -> Report {
        Report {
            alloc,
            told: Vec::new(alloc),
            cases: 0,
            steps: 0,
        }
    }

    /// The number and the text of each line that came otherwise.
    pub fn told(&self) -> &[String] {
        self.told.as_slice()
    }

    /// How many cases and steps were played, and how many lines came otherwise.
    pub fn counts(&self) -> (u32, u32, usize) {
        (self.cases, self.steps, self.told.len())
    }

    /// Counts a case.
    pub fn begin_case(&mut self) {
        self.cases = self.cases.saturating_add(1);
    }

    /// Counts a step.
    pub fn begin_step(&mut self) {
        self.steps = self.steps.saturating_add(1);
    }

    /// Tells what is wrong with a line.
    pub fn tell(&mut self, number: usize, why: &str) -> Result<(), AllocError> {
        let line = format!(in self.alloc; "{number}: {why}")?;
        self.told.push(line)?;
        Ok(())
    }

    /// Tells a line that came otherwise.
    pub fn compare(&mut self, number: usize, wanted: &str, came: &str) -> Result<(), AllocError> {
        if wanted == came {
            return Ok(());
        }
        let one = piece(self.alloc, wanted, came)?;
        let other = piece(self.alloc, came, wanted)?;
        let why = format!(in self.alloc; "wanted {one}\n    but came {other}")?;
        self.tell(number, why.as_str())
    }
}
