// The head of a step: which disk is put in, and how.

use crate::player::refusals::Refusals;
use cbm_direct::Access;
use cbm_program::Pace;

/// Where the disk of a step comes from.
#[derive(Clone, Copy)]
pub enum Start<'a> {
    /// It is as the last step left it.
    Then,
    /// The same, and this step must leave it as it is.
    Stays,
    /// Another disk is put in.
    Disk(&'a str),
}

/// What form the image of a disk has that is put in.
#[derive(Clone, Copy)]
pub struct Form {
    /// It has 40 tracks.
    pub wide: bool,
    /// It has an error byte for each sector.
    pub errors: bool,
    /// It is a G64.
    pub circles: bool,
    /// It is cut to so many bytes, or filled up with zeros.
    pub size: Option<usize>,
}

impl Form {
    const PLAIN: Form = Form {
        wide: false,
        errors: false,
        circles: false,
        size: None,
    };

    /// Takes a word of a head; None if it says nothing of a form.
    fn add(&mut self, word: &str) -> Option<()> {
        match word {
            "40 tracks" => self.wide = true,
            "error bytes" => self.errors = true,
            "as g64" => self.circles = true,
            _ => self.size = Some(word.strip_suffix(" bytes")?.parse::<usize>().ok()?),
        }
        Some(())
    }
}

/// How the requests of a step are played.
#[derive(Clone, Copy)]
pub struct Way {
    /// The drive's number.
    pub device: u8,
    /// Its pace on the bus.
    pub pace: Pace,
    pub protected: bool,
    /// Its direct access, if it has it.
    pub direct: Option<Access>,
    /// The same is asked of a G64.
    pub circles: bool,
    /// The same is asked by the drive's calls, without wires.
    pub calls: bool,
    pub refusals: Refusals,
    /// The script's last line has no line feed.
    pub unended: bool,
}

impl Way {
    /// Whether it can be played so: by the drive's calls there is no pace of a bus.
    fn is_possible(&self) -> bool {
        let by_calls = self.calls || !matches!(self.refusals, Refusals::None);
        self.pace == Pace::Profile || !by_calls
    }

    /// A drive 8 of the profile's pace that may be written.
    pub const PLAIN: Way = Way {
        device: 8,
        pace: Pace::Profile,
        protected: false,
        direct: None,
        circles: false,
        calls: false,
        refusals: Refusals::None,
        unended: false,
    };

    /// Takes a word of a head; None if it says nothing of a way.
    fn add(&mut self, word: &str) -> Option<()> {
        match word {
            "protected" => self.protected = true,
            "direct" => self.direct = Some(Access::Guarded),
            "direct raw" => self.direct = Some(Access::Raw),
            "g64 too" => self.circles = true,
            "by calls too" => self.calls = true,
            "no last line feed" => self.unended = true,
            "device 9" => self.device = 9,
            "device 10" => self.device = 10,
            "device 11" => self.device = 11,
            "pace kernal" => self.pace = Pace::Kernal,
            _ => self.refusals = Refusals::of(word)?,
        }
        Some(())
    }
}

/// The head of a step.
#[derive(Clone, Copy)]
pub struct Head<'a> {
    pub start: Start<'a>,
    pub form: Form,
    pub way: Way,
}

impl<'a> Head<'a> {
    /// What a line says; None if it can't be read.
    pub fn of(line: &'a str) -> Option<Head<'a>> {
        let mut words = line.split(", ");
        let start = match words.next()? {
            "then" => Start::Then,
            "stays" => Start::Stays,
            word => Start::Disk(word.strip_prefix("disk ")?),
        };
        let mut form = Form::PLAIN;
        let mut way = Way::PLAIN;
        for word in words {
            if form.add(word).is_none() {
                way.add(word)?;
            }
        }
        if !way.is_possible() {
            return None;
        }
        Some(Head { start, form, way })
    }
}
