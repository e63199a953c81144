//! The images in a folder and in its folders.
use disk_basics::{Failure, What};
use disk_facts::{is_image_name, is_other_name};
use host_files::{Kind, kind_of, names_in, own_kind_of};
use std::alloc::AllocError;
use std::io;
use std::path::Path;
use std::rt::Runtime;

/// The most folders that are gone through.
const FOLDERS: u32 = 1_000_000;

/// What was passed over in folders.
#[derive(Clone, Copy)]
pub struct Passed {
    /// Files that aren't named as images are.
    pub files: u32,
    /// Pipes, sockets and devices.
    pub specials: u32,
    /// What has no name in UTF-8, and so can't be reached: a file that isn't named as images are, or a folder.
    pub unnamed: u32,
}

/// A walk through folders.
#[derive(Drop)]
pub struct Walk {
    // The folders that are still to be gone through.
    folders: Vec<String>,
    images: Vec<String>,
    passed: Passed,
    // The folders that can't be read.
    refused: Vec<Failure>,
    // Disks and archives of other kinds are images, too.
    has_others: bool,
}

impl Walk {
    /// The walk through a folder to its end, to images, and to disks and archives of other kinds, if they count as such. The one error
    /// is want of memory.
    pub fn through<R: Runtime + AllocGlobal>(
        rt: &R,
        folder: &str,
        has_others: bool,
    ) -> Result<Walk, AllocError> {
        let mut walk = Walk {
            folders: Vec::new(rt.alloc()),
            images: Vec::new(rt.alloc()),
            passed: Passed {
                files: 0,
                specials: 0,
                unnamed: 0,
            },
            refused: Vec::new(rt.alloc()),
            has_others,
        };
        walk.enter(rt, folder)?;
        walk.go_on(rt)?;
        Ok(walk)
    }

    /// The images that were met, sorted by their paths.
    pub fn images(&self) -> &[String] {
        self.images.as_slice()
    }

    /// What was passed over.
    pub fn passed(&self) -> Passed {
        self.passed
    }

    /// The folders that can't be read.
    pub fn refused(&self) -> &[Failure] {
        self.refused.as_slice()
    }

    /// Goes through the folders that were met, and sorts what was met.
    fn go_on<R: Runtime + AllocGlobal>(&mut self, rt: &R) -> Result<(), AllocError> {
        for _ in 0..FOLDERS {
            let Some(folder) = self.folders.pop() else {
                break;
            };
            self.enter(rt, folder.as_str())?;
        }
        self.images.sort()?;
        Ok(())
    }

    /// Goes through a folder.
    fn enter<R: Runtime + AllocGlobal>(&mut self, rt: &R, folder: &str) -> Result<(), AllocError> {
        match self.add_all(rt, folder) {
            Ok(()) => Ok(()),
            Err(error) if error.kind() == io::ErrorKind::OutOfMemory => Err(AllocError),
            Err(error) => {
                let what = What::Read(error.kind());
                self.refused.push(Failure::named(rt.alloc(), what, folder))?;
                Ok(())
            }
        }
    }

    /// Adds what is in a folder.
    fn add_all<R: Runtime + AllocGlobal>(&mut self, rt: &R, folder: &str) -> io::Result<()> {
        for name in names_in(rt, folder)?.as_slice() {
            let path = Path::new(folder).join(rt.alloc(), name.as_str())?;
            self.add(rt, path.as_path().as_str())?;
        }
        Ok(())
    }

    /// Whether a file is named as images are.
    fn is_image(&self, path: &str) -> bool {
        is_image_name(path) || self.has_others && is_other_name(path)
    }

    /// Adds a folder, or a file that is named as images are. A link to a folder isn't followed. What has no name in UTF-8 is reported,
    /// as it may be a folder with images.
    fn add<R: Runtime + AllocGlobal>(&mut self, rt: &R, path: &str) -> Result<(), AllocError> {
        let alloc = rt.alloc();
        match (own_kind_of(rt, path), kind_of(rt, path)) {
            (Ok(Kind::Folder), _) => {
                self.folders.push(String::from_str(alloc, path)?)?;
            }
            (Ok(Kind::Link), Ok(Kind::Folder)) => {}
            (_, Ok(Kind::Other)) => self.passed.specials = self.passed.specials.wrapping_add(1),
            _ if self.is_image(path) => self.images.push(String::from_str(alloc, path)?)?,
            (Err(error), _) if error.kind() == io::ErrorKind::InvalidFilename => {
                let _ = What::Read(error.kind()).tell(rt, path);
                self.passed.unnamed = self.passed.unnamed.wrapping_add(1);
            }
            _ => self.passed.files = self.passed.files.wrapping_add(1),
        }
        Ok(())
    }
}
