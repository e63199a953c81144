//! What several images came to.
use super::folders::Passed;
use disk_basics::host::print;
use disk_basics::{Failure, What, in_memory};
use disk_reports::{Look, LookAnswer, View};
use std::alloc::{AllocError, Global};
use std::rt::Runtime;

/// The noun for so many images.
pub fn image_noun(count: u32) -> &'static str {
    if count == 1 { "image" } else { "images" }
}

/// How many images came to what.
#[derive(Clone, Copy)]
pub struct Counts {
    // Sound, or with what was looked for.
    fine: u32,
    // Not so.
    others: u32,
    // No images of disks, or unreadable.
    none: u32,
    // Among those that were looked at, with files that aren't listed: the directory breaks off, or no link leads to them.
    broken: u32,
    // Among them, disks and archives of other kinds.
    foreign: u32,
    // What was passed over in folders.
    passed: Passed,
}

impl Counts {
    /// None yet.
    pub fn none() -> Counts {
        Counts {
            fine: 0,
            others: 0,
            none: 0,
            broken: 0,
            foreign: 0,
            passed: Passed {
                files: 0,
                specials: 0,
                unnamed: 0,
            },
        }
    }

    /// One more was looked at, maybe a disk or an archive of another kind.
    pub fn add(&mut self, answer: LookAnswer, is_other: bool) {
        self.foreign = self.foreign.wrapping_add(u32::from(is_other));
        match answer {
            LookAnswer::Fine => self.fine = self.fine.wrapping_add(1),
            LookAnswer::Unsound(_) | LookAnswer::NoMatch | LookAnswer::Untitled => self.others =
                self.others.wrapping_add(1),
            LookAnswer::Unlinked(_, true) => {
                self.fine = self.fine.wrapping_add(1);
                self.broken = self.broken.wrapping_add(1);
            }
            LookAnswer::Broken(_) | LookAnswer::Unlinked(_, false) | LookAnswer::Told => {
                self.others = self.others.wrapping_add(1);
                self.broken = self.broken.wrapping_add(1);
            }
        }
    }

    /// One more can't be looked at.
    pub fn pass_over(&mut self) {
        self.none = self.none.wrapping_add(1);
    }

    /// These were passed over in a folder.
    pub fn add_passed(&mut self, passed: Passed) {
        self.passed.files = self.passed.files.wrapping_add(passed.files);
        self.passed.specials = self.passed.specials.wrapping_add(passed.specials);
        self.passed.unnamed = self.passed.unnamed.wrapping_add(passed.unnamed);
    }

    /// How many are of other kinds, and what was passed over in folders, as the end of a line.
    fn end_text(self, alloc: Global) -> Result<String, AllocError> {
        let mut text = String::new(alloc);
        let foreign = self.foreign;
        if foreign != 0 {
            text.push_str(format!(in alloc; ", {foreign} of other kinds")?.as_str())?;
        }
        let Passed {
            files,
            specials,
            unnamed,
        } = self.passed;
        if files != 0 {
            let noun = if files == 1 { "file" } else { "files" };
            text.push_str(format!(in alloc; ", and {files} other {noun}")?.as_str())?;
        }
        if specials != 0 {
            text.push_str(format!(in alloc; ", {specials} pipes or devices")?.as_str())?;
        }
        if unnamed != 0 {
            text.push_str(format!(in alloc; ", {unnamed} with no name in UTF-8")?.as_str())?;
        }
        Ok(text)
    }

    /// The line that says it.
    fn line(self, alloc: Global, view: View) -> Result<String, AllocError> {
        let Counts {
            fine,
            others,
            none,
            ..
        } = self;
        let end = self.end_text(alloc)?;
        let all = fine.wrapping_add(others).wrapping_add(none);
        let noun = image_noun(all);
        match view {
            View::Soundness | View::Flaws => {
                format!(in alloc;
                    "{all} {noun}: {fine} sound, {others} not sound, {none} not images{end}\n"
                )
            }
            View::Matches => {
                format!(in alloc;
                    "{all} {noun}: {fine} with a match, {others} without, {none} no images{end}\n"
                )
            }
            _ => {
                let shown = fine.wrapping_add(others);
                format!(in alloc; "{all} {noun}: {shown} shown, {none} no images{end}\n")
            }
        }
    }

    /// Prints it, but for programs. Errors: `Write`, `NoMemory`.
    pub fn print<R: Runtime + AllocGlobal>(self, rt: &R, look: Look<'_>) -> Result<(), Failure> {
        if look.is_json || look.is_csv || matches!(look.view, View::Sum | View::Sent) {
            return Ok(());
        }
        let line = in_memory(self.line(rt.alloc(), look.view))?;
        print(rt, line.as_bytes())
    }

    /// What the command comes to. Errors: `Several`, where some images can't be looked at, aren't sound, have no title or a directory that breaks off;
    /// `NoMatch`, where no image has such a file.
    pub fn outcome(self, look: Look<'_>) -> Result<(), Failure> {
        if self.none != 0 || self.broken != 0 || self.passed.unnamed != 0 {
            return Err(Failure::new(What::Several));
        }
        match look.view {
            View::Soundness | View::Flaws | View::Directory if self.others != 0 => {
                Err(Failure::new(What::Several))
            }
            View::Matches if self.fine == 0 => Err(Failure::new(What::NoMatch)),
            _ => Ok(()),
        }
    }
}
