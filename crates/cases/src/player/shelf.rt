// The disks of a file: those that are made for it, and those that it kept.

use crate::player::head::Form;
use crate::player::playing::circles_of;
use std::alloc::{AllocError, Global};
use test_images::{empty_image, wide_image};

/// How many sectors a disk of 35 tracks has.
const SECTORS: usize = 683;

/// The bytes of an image of 35 tracks, and of one of 40.
const NARROW: usize = 174_848;

const WIDE: usize = 196_608;

/// A disk that was kept.
#[derive(Drop)]
struct Kept {
    name: String,
    image: Vec<u8>,
}

/// The disks that were kept.
#[derive(Drop)]
pub struct Shelf {
    alloc: Global,
    kept: Vec<Kept>,
}

/// Gives an image an error byte for each sector, none of which tells a fault.
fn add_errors(image: &mut Vec<u8>) -> Result<(), AllocError> {
    for _ in 0..SECTORS {
        image.push(1)?;
    }
    Ok(())
}

/// Cuts an image to a size, or fills it up with zeros.
fn resize(image: &mut Vec<u8>, size: usize) -> Result<(), AllocError> {
    image.truncate(size);
    for _ in image.len()..size {
        image.push(0)?;
    }
    Ok(())
}

/// An image in the form that a head asks for; None if it has none.
fn formed(alloc: Global, image: Vec<u8>, form: Form) -> Result<Option<Vec<u8>>, AllocError> {
    let mut image = image;
    if form.errors {
        add_errors(&mut image)?;
    }
    if form.circles {
        return Ok(circles_of(alloc, image.as_slice()));
    }
    if let Some(size) = form.size {
        resize(&mut image, size)?;
    }
    Ok(Some(image))
}

impl Shelf {
    /// One with no disk.
    pub fn new(alloc: Global) -> Shelf {
        Shelf {
            alloc,
            kept: Vec::new(alloc),
        }
    }

    /// Keeps a disk under a name.
    pub fn keep(&mut self, name: &str, image: &[u8]) -> Result<(), AllocError> {
        let name = String::from_str(self.alloc, name)?;
        let image = Vec::from_slice(self.alloc, image)?;
        self.kept.push(Kept { name, image })?;
        Ok(())
    }

    /// The last disk that was kept under a name.
    fn find(&self, name: &str) -> Option<&[u8]> {
        let mut found = None;
        for kept in self.kept.as_slice() {
            if kept.name.as_str() == name {
                found = Some(kept.image.as_slice());
            }
        }
        found
    }

    /// The image that a name stands for, `empty` and `of zeros` among them; None if there is none.
    pub fn image(&self, name: &str, wide: bool) -> Result<Option<Vec<u8>>, AllocError> {
        let size = if wide { WIDE } else { NARROW };
        let image = match name {
            "empty" if wide => wide_image(self.alloc)?,
            "empty" => empty_image(self.alloc)?,
            "of zeros" => vec![in self.alloc; 0; size]?,
            _ => match self.find(name) {
                Some(kept) => Vec::from_slice(self.alloc, kept)?,
                None => return Ok(None),
            },
        };
        Ok(Some(image))
    }

    /// The same in a form.
    pub fn disk(&self, name: &str, form: Form) -> Result<Option<Vec<u8>>, AllocError> {
        match self.image(name, form.wide)? {
            Some(image) => formed(self.alloc, image, form),
            None => Ok(None),
        }
    }
}
