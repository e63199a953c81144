//! NEW: an image of an empty disk.
ghost use Rattle.std.specs.Prelude.{◌≤◌, length};

use cbm_shell::Form;
use cbm_shell::texts::Charset;
use disk_basics::changing::{new_image, remark};
use disk_basics::host::{require_new, write};
use disk_basics::{Failure, What, WordFault, form, format, id_codes, in_memory, on_disk, title_of};
use host_files::Sync;
use std::alloc::Global;
use std::rt::Runtime;

/// An empty disk that is made.
#[derive(Clone, Copy)]
pub struct Blank<'a> {
    /// Its title.
    pub title: &'a str,
    /// Its id.
    pub id: &'a str,
    /// How many tracks it has.
    pub tracks: &'a str,
    /// The word that says the image's format.
    pub format: Option<&'a str>,
    /// An image that is there is replaced.
    pub replaces: bool,
    /// The character set of its title and its id.
    pub charset: Charset,
}

/// An id: its two codes, and the five that stand after the title, where they are said.
#[derive(Clone, Copy)]
struct Id {
    id: [u8; 2],
    mark: Option<[u8; 5]>,
}

/// The codes of an id.
fn id_of(alloc: Global, charset: Charset, id: &str) -> Result<Id, Failure> {
    match id_codes(alloc, charset, id)?.as_slice() {
        [first, second] => Ok(Id {
            id: [*first, *second],
            mark: None,
        }),
        [first, second, third, dos, version] => Ok(Id {
            id: [*first, *second],
            mark: Some([*first, *second, *third, *dos, *version]),
        }),
        _ => Err(Failure::named(alloc, What::Word(WordFault::Id), id)),
    }
}

/// The image of an empty disk with a title.
fn titled(
    alloc: Global,
    image: &str,
    blank: &Blank<'_>,
    form: Form,
    title: &[u8],
) -> Result<Vec<u8>, Failure>
    requires { length title.now ≤ 16 }
{
    let Id { id, mark } = id_of(alloc, blank.charset, blank.id)?;
    let new = in_memory(new_image(alloc, form, title, id))?;
    match mark {
        Some(mark) => on_disk(alloc, image, remark(alloc, new.as_slice(), &mark)),
        None => Ok(new),
    }
}

/// The image of an empty disk, for a name that may say its format. Errors: `Word`, where the format, the tracks, the
/// title or the id can't be; `NoMemory`.
pub fn blank_image(alloc: Global, image: &str, blank: &Blank<'_>) -> Result<Vec<u8>, Failure> {
    let kind = format(alloc, image, blank.format)?;
    let form = form(alloc, kind, blank.tracks)?;
    let title = title_of(alloc, blank.charset, blank.title)?;
    titled(alloc, image, blank, form, title.as_slice())
}

/// Makes an image of an empty disk, if nothing is there. Errors: those of `blank_image`; `Exists`; `Write`.
pub fn make<R: Runtime + AllocGlobal>(
    rt: &R,
    image: &str,
    blank: &Blank<'_>,
) -> Result<(), Failure> {
    let bytes = blank_image(rt.alloc(), image, blank)?;
    require_new(rt, image, blank.replaces)?;
    write(rt, image, bytes.as_slice(), Sync::Before)
}
