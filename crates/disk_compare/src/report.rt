//! What differs between two disks.
use serde::Serialize;

/// A text of each disk; None where there is none.
#[derive(Drop, Serialize)]
pub struct Texts {
    /// That of the first.
    pub first: Option<String>,
    /// That of the second.
    pub second: Option<String>,
}

/// A number of each disk.
#[derive(Drop, Serialize)]
pub struct Numbers {
    /// That of the first.
    pub first: usize,
    /// That of the second.
    pub second: usize,
}

/// What is so on one disk alone.
#[derive(Drop, Serialize)]
pub struct Flags {
    /// On the first.
    pub first: bool,
    /// On the second.
    pub second: bool,
}

/// The types of two files.
#[derive(Drop, Serialize)]
pub struct Kinds {
    /// That of the first.
    pub first: &'static str,
    /// That of the second.
    pub second: &'static str,
}

/// Bytes that differ: how many there are, and the number of the first that is another one, from 0 on.
#[derive(Drop, Serialize)]
pub struct Bytes {
    /// How many the first has.
    pub first: usize,
    /// How many the second has.
    pub second: usize,
    /// Where they begin to differ.
    pub from: usize,
}

/// A file of one disk alone.
#[derive(Drop, Serialize)]
pub struct Lone {
    /// Its slot.
    pub slot: usize,
    /// Its name, as it is shown.
    pub name: String,
    /// Its name in digits.
    pub petscii: String,
    /// Its type.
    #[serde(rename = "type")]
    pub kind: &'static str,
    /// The blocks that the directory shows.
    pub blocks: u16,
}

/// What differs between two files of one name; None where they are alike.
#[derive(Drop, Serialize)]
pub struct Changed {
    /// Their name, as it is shown.
    pub name: String,
    /// Their name in digits.
    pub petscii: String,
    /// Their slots.
    pub slots: Numbers,
    /// Their bytes.
    pub bytes: Option<Bytes>,
    /// Their types.
    #[serde(rename = "type")]
    pub kind: Option<Kinds>,
    /// Which is locked.
    pub locked: Option<Flags>,
    /// Which is closed.
    pub closed: Option<Flags>,
    /// The blocks that the directories show.
    pub blocks: Option<Numbers>,
    /// The lengths of their records.
    pub record: Option<Numbers>,
    /// Their places among the files, from 1 on, where one moved.
    pub place: Option<Numbers>,
    /// Why a chain breaks off, also where both do so alike.
    pub cut: Option<Texts>,
}

/// The sectors of a track that differ.
#[derive(Drop, Serialize)]
pub struct Differing {
    /// The track.
    pub track: u8,
    /// The sectors, which both disks can read.
    pub sectors: Vec<u8>,
}

/// A sector that can't be read.
#[derive(Drop, Serialize)]
pub struct Unread {
    /// Its track.
    pub track: u8,
    /// Its number on the track.
    pub sector: u8,
    /// The error.
    pub error: u8,
}

/// The sectors that can't be read, but for those with the same error on both disks.
#[derive(Drop, Serialize)]
pub struct Unreads {
    /// Those of the first.
    pub first: Vec<Unread>,
    /// Those of the second.
    pub second: Vec<Unread>,
}

/// What differs between two disks; None where they are alike.
#[derive(Drop, Serialize)]
pub struct Report<'a> {
    /// The name of the first image.
    pub first: &'a str,
    /// The name of the second.
    pub second: &'a str,
    /// Nothing differs.
    pub same: bool,
    /// How many tracks they have.
    pub tracks: Option<Numbers>,
    /// Their titles.
    pub title: Option<Texts>,
    /// Their ids.
    pub id: Option<Texts>,
    /// Their DOS marks.
    pub dos: Option<Texts>,
    /// Where a directory breaks off, also where both do so alike.
    pub broken: Option<Texts>,
    /// The files of the first alone.
    pub only_first: Vec<Lone>,
    /// The files of the second alone.
    pub only_second: Vec<Lone>,
    /// The files of both that differ.
    pub files: Vec<Changed>,
    /// The sectors that differ.
    pub sectors: Vec<Differing>,
    /// The sectors that one disk can't read.
    pub unreadable: Unreads,
}

impl Texts {
    /// Whether they differ.
    pub fn differ(&self) -> bool {
        match (&self.first, &self.second) {
            (Some(first), Some(second)) => first.as_str() != second.as_str(),
            (None, None) => false,
            _ => true,
        }
    }
}

impl Changed {
    /// Whether the files differ: a chain that breaks off alike is no difference.
    pub fn differ(&self) -> bool {
        self.bytes.is_some()
            || self.kind.is_some()
            || self.locked.is_some()
            || self.closed.is_some()
            || self.blocks.is_some()
            || self.record.is_some()
            || self.place.is_some()
            || texts_differ(&self.cut)
    }
}

/// Whether there are texts that differ.
fn texts_differ(texts: &Option<Texts>) -> bool {
    match texts {
        Some(texts) => texts.differ(),
        None => false,
    }
}

/// Whether one of the files differs.
fn one_differs(files: &[Changed]) -> bool {
    for file in files {
        if file.differ() {
            return true;
        }
    }
    false
}

impl Report<'_> {
    /// Whether the labels differ.
    fn labels_differ(&self) -> bool {
        self.tracks.is_some() || self.title.is_some() || self.id.is_some() || self.dos.is_some()
    }

    /// Whether the directories or the files differ.
    fn files_differ(&self) -> bool {
        texts_differ(&self.broken)
            || !self.only_first.is_empty()
            || !self.only_second.is_empty()
            || one_differs(self.files.as_slice())
    }

    /// Whether the sectors differ.
    fn sectors_differ(&self) -> bool {
        !self.sectors.is_empty()
            || !self.unreadable.first.is_empty()
            || !self.unreadable.second.is_empty()
    }

    /// Whether something differs.
    pub fn differs(&self) -> bool {
        self.labels_differ() || self.files_differ() || self.sectors_differ()
    }
}
