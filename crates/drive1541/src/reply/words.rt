//! The words of the command line of a talk.

use super::seat::{Seat, files_of, party_of, plain_party};
use crate::arguments::{direct, direct_of, is_standard};
use cbm_bus::Party;
use cbm_direct_desk::Access;
use clap::{Arg, ArgAction, ArgMatches, Command, Error};
use host_locks::is_same;
use std::alloc::Global;
use std::rt::Files;

/// The most drives.
const MOST: usize = 4;

/// What help ends with.
const EXAMPLES: &str = "Examples:
  drive1541 reply disk.d64=new.d64
  drive1541 reply a.d64 b.g64 --drive 8:20 --drive 9:35:kernal

Each line of the host is answered by the changes on the bus and `ready MOMENT`:
  1000 atn pull    the host changes a line
  until 2000       all that the drives do up to a moment
  end 3000         the same, and the images are saved";

/// What the command line asks for.
#[derive(Drop)]
pub struct Words<'a> {
    seats: Vec<Seat<'a>>,
    is_read_only: bool,
    direct: Option<Access>,
}

/// What may stand on the command line.
fn command<'a>(alloc: Global) -> Result<Command<'a>, Error> {
    let image = Arg::new(alloc, "IMAGE")
        .required(true)
        .action(ArgAction::Append)
        .help("one to four disk images, `IMAGE=OUT` for one that is saved as OUT");
    let drive = Arg::new(alloc, "drive")
        .long("drive")
        .value_name("DEVICE:REACTION:PACE")
        .action(ArgAction::Append)
        .help(
            "the drive of the next image: its number, its reaction of 1 to 60 microseconds, and its pace, `profile` or `kernal`",
        );
    let read_only = Arg::new(alloc, "read-only")
        .long("read-only")
        .action(ArgAction::SetTrue)
        .help("write-protect the disks");
    let direct = direct(
        alloc,
        "let channels of all drives read and write single blocks; `raw`: write any, even of files",
    );
    let command = Command::new(alloc, "drive1541 reply")
        .about("Drives with disks on a bus whose host talks over standard input and output")
        .after_help(EXAMPLES)
        .no_binary_name(true)
        .arg(image)?
        .arg(drive)?
        .arg(read_only)?
        .arg(direct)?;
    Ok(command)
}

/// Reads the command line, after `reply`.
pub fn parse<'a>(alloc: Global, words: &'a [String]) -> Result<ArgMatches<'a>, Error> {
    command(alloc)?.try_get_matches_from(words)
}

/// The drive at a place, as a word says, or nothing does.
fn party_at(place: usize, word: Option<&&str>) -> Result<Party, &'static str> {
    match word {
        None => Ok(plain_party(8 + place.min(3) as u8)),
        Some(word) => party_of(word).ok_or(
            "--drive needs DEVICE, DEVICE:REACTION or DEVICE:REACTION:PACE: 8 to 11, 1 to 60, profile or kernal",
        ),
    }
}

impl<'a> Words<'a> {
    /// What the command line asks for, or what is wrong with it.
    pub fn of(alloc: Global, matches: &ArgMatches<'a>) -> Result<Words<'a>, &'static str> {
        let images = matches.get_strs("IMAGE").unwrap_or(&[]);
        let drives = matches.get_strs("drive").unwrap_or(&[]);
        if images.len() < drives.len() {
            return Err("there are more drives than images");
        }
        let mut words = Words {
            seats: Vec::new(alloc),
            is_read_only: matches.get_flag("read-only"),
            direct: direct_of(matches),
        };
        for (place, image) in images.iter().enumerate() {
            let party = party_at(place, drives.get(place))?;
            words.add(image, party)?;
        }
        Ok(words)
    }

    /// A drive more.
    fn add(&mut self, word: &'a str, party: Party) -> Result<(), &'static str> {
        let (image, out) = files_of(word);
        if is_standard(image) || out.is_some_and(is_standard) {
            return Err("standard input and output belong to the host, so `-` can't be used here");
        }
        self.accepts(out, party)?;
        self.seats
            .push(Seat { image, out, party })
            .map_err(|_| "no memory")
    }

    /// Whether a drive may stand beside those before it.
    fn accepts(&self, out: Option<&str>, party: Party) -> Result<(), &'static str> {
        if self.seats.len() >= MOST {
            return Err("a bus has four drives at most");
        }
        for seat in self.seats.as_slice() {
            if seat.party.device == party.device {
                return Err("two drives have the same number");
            }
            if out.is_some() && seat.out == out {
                return Err("two images are saved to the same file");
            }
        }
        Ok(())
    }

    /// Whether a file is the image of another drive than this, or is written for one before it.
    fn is_of_another<R: Files + AllocGlobal>(&self, rt: &R, place: usize, out: &str) -> bool {
        for (other, seat) in self.seats.iter().enumerate() {
            let is_image = other != place && is_same(rt, seat.image, out);
            let is_written = match seat.out {
                Some(written) => other < place && is_same(rt, written, out),
                None => false,
            };
            if is_image || is_written {
                return true;
            }
        }
        false
    }

    /// The first file that would be written over though another drive has it.
    pub fn clash<R: Files + AllocGlobal>(&self, rt: &R) -> Option<&'a str> {
        for (place, seat) in self.seats.iter().enumerate() {
            if let Some(out) = seat.out
                && self.is_of_another(rt, place, out)
            {
                return Some(out);
            }
        }
        None
    }

    /// The drives, in their order.
    pub fn seats(&self) -> &[Seat<'a>] {
        self.seats.as_slice()
    }

    /// The drives' direct access, if they have it.
    pub fn direct(&self) -> Option<Access> {
        self.direct
    }

    /// Whether the disks are protected.
    pub fn is_read_only(&self) -> bool {
        self.is_read_only
    }
}
