// A step of a case.

use crate::player::head::Way;
use crate::player::playing::{Played, circles_of, holds_the_same, play};
use crate::player::refusals::{Refusals, Stop};
use crate::player::report::Report;
use crate::player::stops;
use crate::player::talk::Talk;
use std::alloc::{AllocError, Global};

/// How far a step is.
#[derive(Clone, Copy)]
enum Stage {
    /// Its requests are read.
    Asked,
    Played,
    /// A line said whether the disk is sound that it left.
    Judged,
}

/// A step: what is asked of a drive that was just switched on.
#[derive(Drop)]
pub struct Step {
    alloc: Global,
    number: usize,
    /// The disk must stay as it is.
    stays: bool,
    way: Way,
    pub talk: Talk,
    stage: Stage,
    writes: u32,
}

impl Step {
    /// One whose head is in this line.
    pub fn new(alloc: Global, number: usize, stays: bool, way: Way) -> Step {
        Step {
            alloc,
            number,
            stays,
            way,
            talk: Talk::new(alloc),
            stage: Stage::Asked,
            writes: 0,
        }
    }

    /// The line of its head.
    pub fn number(&self) -> usize {
        self.number
    }

    /// Whether more can be asked.
    pub fn is_asked(&self) -> bool {
        matches!(self.stage, Stage::Asked)
    }

    /// Whether a line said of its disk what a check says.
    pub fn is_judged(&self) -> bool {
        matches!(self.stage, Stage::Judged)
    }

    /// A line says of its disk what a check says.
    pub fn judge(&mut self) {
        self.stage = Stage::Judged;
    }

    /// How many writes were refused one by one.
    pub fn writes(&self) -> u32 {
        self.writes
    }

    /// Its script.
    fn script(&self) -> &str {
        let script = self.talk.script();
        if self.way.unended {
            return script.strip_suffix("\n").unwrap_or(script);
        }
        script
    }

    /// Plays its script once.
    fn print(&self, image: &[u8]) -> Result<Played, AllocError> {
        match self.way.refusals {
            Refusals::At(stop) => Ok(
                stops::play(self.alloc, image, self.script(), stop, self.way.direct)?.played,
            ),
            Refusals::None | Refusals::Each => play(self.alloc, image, self.script(), &self.way),
        }
    }

    /// Plays its script on the circles of the disk, which must print and leave the same.
    fn play_on_circles(
        &self,
        report: &mut Report,
        image: &[u8],
        text: &str,
        after: &[u8],
    ) -> Result<(), AllocError> {
        let Some(circles) = circles_of(self.alloc, image) else {
            return report.tell(self.number, "this disk has no G64");
        };
        let Played {
            text: told,
            after: left,
        } = self.print(circles.as_slice())?;
        report.compare(self.number, text, told.as_str())?;
        let Some(left) = left else {
            return Ok(());
        };
        if !holds_the_same(self.alloc, after, left.as_slice()) {
            return report.tell(self.number, "the G64 holds otherwise");
        }
        Ok(())
    }

    /// Plays its script by the drive's calls, which must print and leave the same.
    fn play_by_calls(
        &self,
        report: &mut Report,
        image: &[u8],
        text: &str,
        after: &[u8],
    ) -> Result<(), AllocError> {
        let Played {
            text: told,
            after: left,
        } = stops::play(
            self.alloc,
            image,
            self.script(),
            Stop::NEVER,
            self.way.direct,
        )?
        .played;
        report.compare(self.number, text, told.as_str())?;
        let Some(left) = left else {
            return Ok(());
        };
        if left.as_slice() != after {
            return report.tell(self.number, "the calls leave another disk");
        }
        Ok(())
    }

    /// Refuses its writes one by one, if that is asked for.
    fn stop_at_each(&mut self, report: &mut Report, image: &[u8]) -> Result<(), AllocError> {
        match self.way.refusals {
            Refusals::Each => {
                self.writes = stops::at_each_write(
                    self.alloc,
                    image,
                    &self.way,
                    self.script(),
                    self.number,
                    report,
                )?;
                Ok(())
            }
            Refusals::None | Refusals::At(_) => Ok(()),
        }
    }

    /// Plays it on a disk; the disk that it leaves, or none if it is as it was.
    fn play_on(
        &mut self,
        report: &mut Report,
        image: &[u8],
    ) -> Result<Option<Vec<u8>>, AllocError> {
        self.stop_at_each(report, image)?;
        let Played { text, after } = self.print(image)?;
        self.talk.compare(report, self.number, text.as_str())?;
        let Some(after) = after else {
            return Ok(None);
        };
        if self.way.calls {
            self.play_by_calls(report, image, text.as_str(), after.as_slice())?;
        }
        if self.way.circles {
            self.play_on_circles(report, image, text.as_str(), after.as_slice())?;
        }
        if self.stays && after.as_slice() != image {
            report.tell(self.number, "the disk didn't stay as it was")?;
        }
        Ok(Some(after))
    }

    /// Plays it on a disk, if it wasn't played.
    pub fn play(&mut self, report: &mut Report, image: &mut Vec<u8>) -> Result<(), AllocError> {
        if !self.is_asked() {
            return Ok(());
        }
        self.stage = Stage::Played;
        if let Some(after) = self.play_on(report, image.as_slice())? {
            *image = after;
        }
        Ok(())
    }
}
