//! A file that is shown, for programs.
use crate::screen::{Form, is_listed, screen_of};
use cbm_basic::after_program;
use cbm_shell::texts::Charset;
use disk_facts::hex;
use disk_json::{Named, line};
use serde::Serialize;
use std::alloc::{AllocError, Global};

/// A line of a BASIC program.
#[derive(Drop, Serialize)]
struct BasicLine {
    number: u16,
    text: String,
}

/// A file as it is shown: as a program, as text, or as bytes.
#[derive(Drop, Serialize)]
struct FileReport<'a> {
    image: &'a str,
    slot: usize,
    name: String,
    petscii: String,
    #[serde(rename = "type")]
    kind: Option<&'static str>,
    basic: Option<Vec<BasicLine>>,
    after: Option<usize>,
    text: Option<Vec<String>>,
    bytes: Option<String>,
}

/// A line of a listing: its number, a space, its text.
fn basic_line(alloc: Global, line: &str) -> Result<BasicLine, AllocError> {
    let (number, text) = line.split_once(' ').unwrap_or((line, ""));
    Ok(BasicLine {
        number: number.parse::<u16>().unwrap_or(0),
        text: String::from_str(alloc, text)?,
    })
}

/// The lines of a listing.
fn basic_lines(alloc: Global, listing: &str) -> Result<Vec<BasicLine>, AllocError> {
    let mut lines = Vec::new(alloc);
    for line in listing.lines() {
        lines
            .push(basic_line(alloc, line)?)
            .map_err(AllocError::from)?;
    }
    Ok(lines)
}

/// The lines of a text.
fn text_lines(alloc: Global, text: &str) -> Result<Vec<String>, AllocError> {
    let mut lines = Vec::new(alloc);
    for line in text.lines() {
        lines
            .push(String::from_str(alloc, line)?)
            .map_err(AllocError::from)?;
    }
    Ok(lines)
}

/// A file of an image, without what is shown of it.
fn report_of<'a>(image: &'a str, file: Named, kind: Option<&'static str>) -> FileReport<'a> {
    let Named {
        slot,
        name,
        petscii,
    } = file;
    FileReport {
        image,
        slot,
        name,
        petscii,
        kind,
        basic: None,
        after: None,
        text: None,
        bytes: None,
    }
}

/// A file of these bytes as a line of JSON. The one error is want of memory.
pub fn file_line(
    alloc: Global,
    image: &str,
    file: Named,
    kind: Option<&'static str>,
    shown: (Charset, Form),
    bytes: &[u8],
) -> Result<Vec<u8>, AllocError> {
    let (charset, form) = shown;
    let mut report = report_of(image, file, kind);
    if is_listed(form, bytes) {
        let listing = screen_of(alloc, charset, form, bytes)?;
        report.basic = Some(basic_lines(alloc, listing.as_str())?);
        report.after = Some(after_program(bytes).len());
    } else if form == Form::Text {
        let text = screen_of(alloc, charset, form, bytes)?;
        report.text = Some(text_lines(alloc, text.as_str())?);
    } else {
        report.bytes = Some(hex(alloc, bytes)?);
    }
    line(alloc, &report)
}
