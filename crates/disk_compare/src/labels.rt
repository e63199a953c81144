//! What 18/0 says of two disks.
use crate::report::Texts;
use crate::side::Side;
use cbm_shell::texts::Charset;
use disk_basics::calls::name_text;
use disk_facts::unfilled;
use std::alloc::{AllocError, Global};

/// What 18/0 says of a disk, as it is shown; None where it can't be read.
#[derive(Drop)]
struct Label {
    title: Option<String>,
    id: Option<String>,
    dos: Option<String>,
}

/// What differs.
#[derive(Drop)]
pub struct Labels {
    /// The titles.
    pub title: Option<Texts>,
    /// The ids.
    pub id: Option<Texts>,
    /// The two characters of the DOS after them.
    pub dos: Option<Texts>,
}

/// What 18/0 says of a disk.
fn label_of(alloc: Global, charset: Charset, side: &Side) -> Result<Label, AllocError> {
    let Some(label) = side.info.label else {
        return Ok(Label {
            title: None,
            id: None,
            dos: None,
        });
    };
    let [first, second, _, dos, version] = label.mark;
    let title = name_text(alloc, charset, unfilled(label.title.as_slice()))?;
    let id = name_text(alloc, charset, &[first, second])?;
    let dos = name_text(alloc, charset, &[dos, version])?;
    Ok(Label {
        title: Some(title),
        id: Some(id),
        dos: Some(dos),
    })
}

/// Two texts, if they differ.
fn texts(first: Option<String>, second: Option<String>) -> Option<Texts> {
    let texts = Texts { first, second };
    if texts.differ() { Some(texts) } else { None }
}

/// What differs between the labels of two disks. The one error is want of memory.
pub fn labels_of(
    alloc: Global,
    charset: Charset,
    first: &Side,
    second: &Side,
) -> Result<Labels, AllocError> {
    let first = label_of(alloc, charset, first)?;
    let second = label_of(alloc, charset, second)?;
    Ok(Labels {
        title: texts(first.title, second.title),
        id: texts(first.id, second.id),
        dos: texts(first.dos, second.dos),
    })
}
