//! The commands that look into images: one image, several, or those of folders.
use super::counts::Counts;
use super::folders::Walk;
use disk_basics::host::print;
use disk_basics::{Failure, What, in_memory};
use disk_reports::{Look, LookAnswer, heads, refusal_line};
use disk_sources::{Sight, is_for_all, seen};
use host_files::{Kind, kind_of};
use std::rt::Runtime;

/// Looks at the one image of the command line.
fn look_at_one<R: Runtime + AllocGlobal>(
    rt: &R,
    image: &str,
    look: Look<'_>,
) -> Result<(), Failure> {
    let shown = seen(rt, image, look)?.shown;
    print(rt, shown.text.as_slice())?;
    match shown.answer {
        LookAnswer::Fine => Ok(()),
        LookAnswer::Unsound(unsound) => Err(Failure::new(What::Unsound(unsound))),
        LookAnswer::NoMatch => Err(Failure::new(What::NoMatch)),
        LookAnswer::Untitled => Err(Failure::named(rt.alloc(), What::Untitled, image)),
        LookAnswer::Broken(end) => Err(Failure::named(rt.alloc(), What::Broken(end), image)),
        LookAnswer::Unlinked(unlinked, _) => {
            Err(Failure::named(rt.alloc(), What::Unlinked(unlinked), image))
        }
        LookAnswer::Told => Err(Failure::new(What::Told)),
    }
}

/// Reports that an image can't be looked at or changed, for people and for programs.
pub fn tell_other<R: Runtime + AllocGlobal>(
    rt: &R,
    image: &str,
    failure: &Failure,
    is_json: bool,
) -> Result<(), Failure> {
    let _ = failure.tell(rt);
    if !is_json {
        return Ok(());
    }
    let line = in_memory(refusal_line(rt.alloc(), image, failure.status(), failure.reason()))?;
    print(rt, line.as_slice())
}

/// Reports what one of several images lacks.
fn tell_answer(rt: &impl Eprint, image: &str, answer: LookAnswer) {
    let _ = match answer {
        LookAnswer::Untitled => What::Untitled.tell(rt, image),
        LookAnswer::Broken(end) => What::Broken(end).tell(rt, image),
        LookAnswer::Unlinked(unlinked, _) => What::Unlinked(unlinked).tell(rt, image),
        LookAnswer::Fine | LookAnswer::Unsound(_) => Ok(()),
        LookAnswer::NoMatch | LookAnswer::Told => Ok(()),
    };
}

/// Looks at one of several images. Where it can't be read, or is none, that is reported, and the next one comes.
fn look_among<R: Runtime + AllocGlobal>(
    rt: &R,
    image: &str,
    look: Look<'_>,
    counts: &mut Counts,
) -> Result<(), Failure> {
    match seen(rt, image, look) {
        Ok(Sight { shown, is_other }) => {
            counts.add(shown.answer, is_other);
            tell_answer(rt, image, shown.answer);
            print(rt, shown.text.as_slice())
        }
        Err(failure) if matches!(failure.what, What::NoMemory) => Err(failure),
        Err(failure) => {
            counts.pass_over();
            tell_other(rt, image, &failure, look.is_json)
        }
    }
}

/// Looks at the images of a folder. A folder that can't be read is reported, as an image is.
fn look_into<R: Runtime + AllocGlobal>(
    rt: &R,
    folder: &str,
    look: Look<'_>,
    counts: &mut Counts,
) -> Result<(), Failure> {
    let walk = in_memory(Walk::through(rt, folder, is_for_all(look.view)))?;
    for failure in walk.refused() {
        counts.pass_over();
        tell_other(rt, failure.name(), failure, look.is_json)?;
    }
    for image in walk.images() {
        look_among(rt, image.as_str(), look, counts)?;
    }
    counts.add_passed(walk.passed());
    Ok(())
}

/// Looks at one of several images, or at those of a folder.
fn look_at<R: Runtime + AllocGlobal>(
    rt: &R,
    name: &str,
    look: Look<'_>,
    counts: &mut Counts,
) -> Result<(), Failure> {
    if look.is_recursive && matches!(kind_of(rt, name), Ok(Kind::Folder)) {
        return look_into(rt, name, look, counts);
    }
    look_among(rt, name, look, counts)
}

/// Looks at several images, and reports what they came to.
fn look_at_each<R: Runtime + AllocGlobal>(
    rt: &R,
    images: &[&str],
    look: Look<'_>,
) -> Result<(), Failure> {
    let mut counts = Counts::none();
    for image in images {
        look_at(rt, *image, look, &mut counts)?;
    }
    counts.print(rt, look)?;
    counts.outcome(look)
}

/// Prints the heads of a table's columns.
fn print_heads<R: Runtime + AllocGlobal>(rt: &R, look: Look<'_>) -> Result<(), Failure> {
    if look.is_csv && !look.is_json {
        print(rt, heads(look.view))?;
    }
    Ok(())
}

/// Looks at images, one or several. Errors: of one image its own; of several `Several` or `NoMatch`, as each that can't
/// be looked at is reported before; `Write`; `NoMemory`.
pub fn look_at_all<R: Runtime + AllocGlobal>(
    rt: &R,
    images: &[&str],
    look: Look<'_>,
) -> Result<(), Failure> {
    print_heads(rt, look)?;
    match images {
        [image] if !look.is_recursive => look_at_one(rt, *image, look),
        _ => {
            let look = Look {
                is_among: true,
                ..look
            };
            look_at_each(rt, images, look)
        }
    }
}
