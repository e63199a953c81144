// Lines that stand for several: `for # = 0 to 143` .. `next`.

use crate::player::numbered::Numbered;
use crate::player::report::Report;
use std::alloc::{AllocError, Global};

/// The lines between a `for` and its `next`, and the numbers that `#` stands for in them.
#[derive(Drop)]
struct Repetition {
    from: u32,
    to: u32,
    body: Vec<Numbered>,
}

/// A line in which `#` is a number.
fn with_number(alloc: Global, line: &str, number: u32) -> Result<String, AllocError> {
    let mut out = String::new(alloc);
    let mut later = false;
    for part in line.split('#') {
        if later {
            write!(out, "{number}")?;
        }
        out.push_str(part)?;
        later = true;
    }
    Ok(out)
}

impl Repetition {
    /// The one that a line begins; None if the line can't be read.
    fn begin(alloc: Global, line: &str) -> Option<Repetition> {
        let (from, to) = line.strip_prefix("for # = ")?.split_once(" to ")?;
        Some(Repetition {
            from: from.parse::<u32>().ok()?,
            to: to.parse::<u32>().ok()?,
            body: Vec::new(alloc),
        })
    }

    /// Puts its lines after others, once for each number.
    fn unroll(&self, alloc: Global, lines: &mut Vec<Numbered>) -> Result<(), AllocError> {
        for count in self.from..=self.to {
            for line in self.body.as_slice() {
                let text = with_number(alloc, line.text.as_str(), count)?;
                lines.push(Numbered {
                    number: line.number,
                    text,
                })?;
            }
        }
        Ok(())
    }
}

/// The lines of a file so far, and the `for` whose `next` is still to come.
#[derive(Drop)]
struct Unrolled {
    alloc: Global,
    lines: Vec<Numbered>,
    open: Option<Repetition>,
}

impl Unrolled {
    /// Begins a `for`.
    fn begin(&mut self, line: &Numbered, report: &mut Report) -> Result<(), AllocError> {
        self.open = Repetition::begin(self.alloc, line.text.as_str());
        if self.open.is_none() {
            report.tell(line.number, "this should be `for # = NUMBER to NUMBER`")?;
        }
        Ok(())
    }

    /// Takes a line.
    fn add(&mut self, line: Numbered, report: &mut Report) -> Result<(), AllocError> {
        let Some(mut open) = self.open.take() else {
            if line.text.as_str().starts_with("for ") {
                return self.begin(&line, report);
            }
            self.lines.push(line)?;
            return Ok(());
        };
        if line.text.as_str() == "next" {
            return open.unroll(self.alloc, &mut self.lines);
        }
        open.body.push(line)?;
        self.open = Some(open);
        Ok(())
    }
}

/// The lines of a file, each `for` unrolled; empty lines and those that begin with `;` are left out.
pub fn lines_of(
    alloc: Global,
    text: &str,
    report: &mut Report,
) -> Result<Vec<Numbered>, AllocError> {
    let mut unrolled = Unrolled {
        alloc,
        lines: Vec::new(alloc),
        open: None,
    };
    let mut number = 0usize;
    for line in text.lines() {
        number = number.wrapping_add(1);
        if !line.is_empty() && !line.starts_with(';') {
            unrolled.add(Numbered::new(alloc, number, line)?, report)?;
        }
    }
    if unrolled.open.is_some() {
        report.tell(number, "a `for` without its `next`")?;
    }
    Ok(unrolled.lines)
}
