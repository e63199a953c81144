//! What the lines of a recipe are built with.
use cbm_shell::texts::Charset;
use disk_basics::host::{read_file, require_no_input};
use disk_basics::{Failure, What, WordFault, in_memory, petscii};
use disk_recipes::RecipeLine;
use std::path::Path;
use std::rt::Runtime;

/// The most bytes of a name on a disk.
const LONGEST: usize = 16;

/// The image that is built, where its files are, and the character set of its names.
#[derive(Clone, Copy)]
pub struct Bench<'r> {
    /// The image.
    pub image: &'r str,
    /// The folder of its files.
    pub folder: &'r str,
    /// The character set of its names.
    pub charset: Charset,
}

/// The slot that is filled next, and the line of the recipe that fills it.
#[derive(Clone, Copy)]
pub struct Next<'r> {
    /// The slot, from 0.
    pub slot: u8,
    /// Its line.
    pub line: &'r RecipeLine,
}

/// Reads a file that a recipe names. Errors: those of `read_file`; `Word`, where it is the image; `NoMemory`.
pub fn read_beside<R: Runtime + AllocGlobal>(
    rt: &R,
    bench: Bench<'_>,
    file: &str,
) -> Result<Vec<u8>, Failure> {
    let name = in_memory(host_files::text_of(rt.alloc(), file.as_bytes()))?;
    let path = in_memory(Path::new(bench.folder).join(rt.alloc(), name.as_str()))?;
    require_no_input(rt, path.as_path().as_str(), bench.image)?;
    read_file(rt, path.as_path().as_str())
}

/// A name of at most sixteen codes, whatever they are. Errors: those of `petscii`; `Word`, for more than sixteen.
pub fn any_name<R: Runtime + AllocGlobal>(
    rt: &R,
    charset: Charset,
    name: &str,
) -> Result<Vec<u8>, Failure> {
    let codes = petscii(rt.alloc(), charset, name)?;
    if codes.len() > LONGEST {
        return Err(Failure::named(rt.alloc(), What::Word(WordFault::LongName), name));
    }
    Ok(codes)
}
