//! A disk or an archive of another kind.
use crate::end::OtherEnd;
use cbm_image::OF_40_TRACKS;
use cbm_medium::{Link, Trouble};
use cbm_shell::foreign_of;
use cbm_sources::{Contents, Fault, Form, Source, SourceKind};
use cbm_volume::{Entry, Label};
use disk_facts::marked_as;
use disk_reports::{Broken, Facts, Files, OtherKind};
use std::alloc::{AllocError, Global};

/// The bytes of a sector.
const SECTOR: usize = 256;

/// A disk or an archive of another kind, and its bytes.
#[derive(Drop)]
pub struct Other<'b> {
    bytes: &'b [u8],
    source: Source<'b>,
}

/// What an image of a form is called, with an error byte for each sector or without.
fn form_name(form: Form, has_errors: bool) -> &'static str {
    match form {
        Form::D71 if has_errors => "D71 with error bytes",
        Form::D71 => "D71",
        Form::D81 if has_errors => "D81 with error bytes",
        Form::D81 => "D81",
        _ if has_errors => "D64 with error bytes",
        _ => "D64",
    }
}

/// The title and the id in the header of a 1581's disk.
fn label_of_1581(header: &[u8; 256]) -> Label {
    let mut title = [0; 16];
    title.copy_from_slice(&header[4..20]);
    let mut mark = [0; 5];
    mark.copy_from_slice(&header[22..27]);
    Label { title, mark }
}

/// The title and the id of a disk, if the sector that has them can be read.
fn label_of(disk: &cbm_sources::Disk<'_>) -> Option<Label> {
    match disk.form() {
        Form::D81 => Some(label_of_1581(&disk.read(Link::new(40, 0)).ok()?)),
        _ => Some(Label::of(&disk.read(Link::new(18, 0)).ok()?)),
    }
}

/// The sectors of a disk that can't be read: how many, and the first.
fn unreadable_of(disk: &cbm_sources::Disk<'_>) -> (usize, Option<Trouble>) {
    let mut count: usize = 0;
    let mut first = None;
    for track in 1..disk.form().tracks().saturating_add(1) {
        for sector in 0..disk.form().sectors_of(track) {
            if let Err(trouble) = disk.read(Link::new(track, sector)) {
                count = count.saturating_add(1);
                first = Some(first.unwrap_or(trouble));
            }
        }
    }
    (count, first)
}

/// Where a directory breaks off; None where it is whole. The one error is want of memory.
fn broken_of(alloc: Global, end: Option<OtherEnd>) -> Result<Option<Broken>, AllocError> {
    let Some(end) = end else {
        return Ok(None);
    };
    let (track, sector, error) = match end.fault {
        Fault::Chain(trouble) => (
            Some(trouble.track),
            Some(trouble.sector),
            Some(trouble.code),
        ),
        _ => (None, None, None),
    };
    Ok(Some(Broken {
        entries: end.entries,
        track,
        sector,
        error,
        text: format!(in alloc; "{end}")?,
    }))
}

impl<'b> Other<'b> {
    /// The disk or the archive of another kind that these bytes are; None of a 1541's image, and of none. The one error is want of
    /// memory.
    pub fn of(alloc: Global, bytes: &'b [u8]) -> Result<Option<Other<'b>>, AllocError> {
        if foreign_of(bytes).is_none() || marked_as(bytes).is_some() {
            return Ok(None);
        }
        Other::read(alloc, bytes)
    }

    /// The disk or the archive that these bytes are.
    fn read(alloc: Global, bytes: &'b [u8]) -> Result<Option<Other<'b>>, AllocError> {
        match Source::of(alloc, bytes)? {
            Some(source) => Ok(Some(Other { bytes, source })),
            None => Ok(None),
        }
    }

    /// Its bytes.
    pub fn bytes(&self) -> &'b [u8] {
        self.bytes
    }

    /// The form of its disk; None of an archive.
    pub fn form(&self) -> Option<Form> {
        match self.source.kind() {
            SourceKind::Image(form) => Some(form),
            SourceKind::TapeArchive | SourceKind::LynxArchive => None,
        }
    }

    /// Its bytes without the error bytes of its sectors.
    pub fn sectors(&self) -> &'b [u8] {
        match self.form() {
            Some(form) => {
                let size = SECTOR * usize::from(form.sectors());
                self.bytes.get(..size).unwrap_or(self.bytes)
            }
            None => self.bytes,
        }
    }

    /// The disk of its sectors up to track 40 without error bytes, if its tracks are those of a 1541's disk. The one error is want of
    /// memory.
    pub fn up_to_40(&self, alloc: Global) -> Result<Option<Other<'b>>, AllocError> {
        match (self.form(), self.bytes.get(..OF_40_TRACKS)) {
            (None | Some(Form::D71 | Form::D81), _) | (_, None) => Ok(None),
            (Some(_), Some(bytes)) => Other::read(alloc, bytes),
        }
    }

    /// Its sectors beyond track 40, if its tracks up to there are those of a 1541's disk.
    pub fn beyond_40(&self) -> &'b [u8] {
        match self.form() {
            Some(Form::D64Of42) => self.sectors().get(OF_40_TRACKS..).unwrap_or(&[]),
            _ => &[],
        }
    }

    /// What its format is called.
    pub fn format(&self) -> &'static str {
        let has_errors = self.sectors().len() != self.bytes.len();
        match self.source.kind() {
            SourceKind::Image(form) => form_name(form, has_errors),
            SourceKind::TapeArchive => "T64",
            SourceKind::LynxArchive => "Lynx",
        }
    }

    /// What it is: `D81 of 80 tracks`. The one error is want of memory.
    pub fn kind(&self, alloc: Global) -> Result<String, AllocError> {
        let Some(form) = self.form() else {
            let format = self.format();
            return format!(in alloc; "{format} archive");
        };
        let format = form_name(form, false);
        let tracks = form.tracks();
        let has_errors = self.sectors().len() != self.bytes.len();
        let end = if has_errors { ", with error bytes" } else { "" };
        format!(in alloc; "{format} of {tracks} tracks{end}")
    }

    /// The title and the id of its disk, if the sector that has them can be read; None of an archive.
    pub fn label(&self) -> Option<Label> {
        match &self.source {
            Source::Image(disk) => label_of(disk),
            _ => None,
        }
    }

    /// The sectors of its disk that can't be read, as their error bytes say: how many, and the first; None of an archive.
    pub fn unreadable(&self) -> Option<(usize, Option<Trouble>)> {
        match &self.source {
            Source::Image(disk) => Some(unreadable_of(disk)),
            _ => None,
        }
    }

    /// Its entries, up to where its directory breaks off, and why it does. The one error is want of memory.
    pub fn contents(&self, alloc: Global) -> Result<Contents, AllocError> {
        self.source.entries(alloc)
    }

    /// Where its directory breaks off, after these contents; None where it is whole.
    pub fn end(&self, contents: &Contents) -> Option<OtherEnd> {
        let most = match self.form() {
            Some(form) => form.directory_limit(),
            None => 0,
        };
        Some(OtherEnd {
            entries: contents.entries.len(),
            fault: contents.fault?,
            most,
        })
    }

    /// The bytes of the file of an entry's number.
    pub fn file(&self, alloc: Global, number: usize) -> Result<Vec<u8>, Fault> {
        self.source.file(alloc, number)
    }

    /// What is known of it, but for its files.
    fn facts(&self, alloc: Global) -> Facts {
        let tracks = match self.form() {
            Some(form) => Some(form.tracks()),
            None => None,
        };
        let unreadable = match self.unreadable() {
            Some((count, _)) => Some(count),
            None => None,
        };
        Facts {
            format: self.format(),
            tracks,
            more_tracks: Vec::new(alloc),
            map: None,
            label: self.label(),
            free: None,
            unreadable,
            check: None,
            odd: Vec::new(alloc),
            unlinked: Vec::new(alloc),
        }
    }

    /// It with these contents, as it is looked at. The one error is want of memory.
    pub fn looked_at<'s>(
        &'s self,
        alloc: Global,
        contents: &'s Contents,
    ) -> Result<OtherKind<'s>, AllocError> {
        Ok(OtherKind {
            kind: self.kind(alloc)?,
            facts: self.facts(alloc),
            entries: contents.entries.as_slice(),
            broken: broken_of(alloc, self.end(contents))?,
            summed: self.sectors(),
        })
    }
}

impl<'b> Files for Other<'b> {
    fn bytes_of(
        &self,
        alloc: Global,
        _entry: &Entry,
        number: usize,
    ) -> Result<Option<Vec<u8>>, AllocError> {
        match self.file(alloc, number) {
            Ok(bytes) => Ok(Some(bytes)),
            Err(Fault::Memory) => Err(AllocError),
            Err(_) => Ok(None),
        }
    }
}
