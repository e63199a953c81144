//! What images show, and disks and archives of other kinds.
use crate::end::End;
use crate::other::Other;
use disk_basics::host::{read_any, require_ours};
use disk_basics::{Failure, in_memory, on_disk};
use disk_reports::{Look, Shown, View, lines_of, other_lines};
use std::rt::Runtime;

/// What a file shows.
#[derive(Drop)]
pub struct Sight {
    /// Its lines, and what they come to.
    pub shown: Shown,
    /// It is a disk or an archive of another kind.
    pub is_other: bool,
}

/// Whether disks and archives of other kinds show this, too.
pub fn is_for_all(view: View) -> bool {
    matches!(
        view,
        View::Directory | View::Matches | View::Facts | View::Sum
    )
}

/// What a disk or an archive of another kind shows. Where its directory breaks off, that is reported.
fn other_seen<R: Runtime + AllocGlobal>(
    rt: &R,
    name: &str,
    other: &Other<'_>,
    look: Look<'_>,
) -> Result<Shown, Failure> {
    let contents = in_memory(other.contents(rt.alloc()))?;
    if look.view != View::Sum {
        let _ = End::of(other.end(&contents)).tell(rt, name);
    }
    let kind = in_memory(other.looked_at(rt.alloc(), &contents))?;
    in_memory(other_lines(rt.alloc(), name, other, kind, look))
}

/// What an image shows; one of another kind too, if its directory, its facts, its sum or files that match are looked at. Errors:
/// those of `read_image`; `Disk`; `NoMemory`.
pub fn seen<R: Runtime + AllocGlobal>(
    rt: &R,
    name: &str,
    look: Look<'_>,
) -> Result<Sight, Failure> {
    let bytes = read_any(rt, name)?;
    if is_for_all(look.view) {
        if let Some(other) = in_memory(Other::of(rt.alloc(), bytes.as_slice()))? {
            let shown = other_seen(rt, name, &other, look)?;
            return Ok(Sight {
                shown,
                is_other: true,
            });
        }
    }
    require_ours(rt.alloc(), name, bytes.as_slice())?;
    let shown = on_disk(
        rt.alloc(),
        name,
        lines_of(rt.alloc(), name, bytes.as_slice(), look),
    )?;
    Ok(Sight {
        shown,
        is_other: false,
    })
}
