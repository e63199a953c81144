//! The picture of a disk's sectors, with letters for the files.
use crate::colour::{PLAIN, escape_of};
use crate::owner::{Owner, letter_of, owner_at};
use std::alloc::{AllocError, Global};

/// How many characters of a track's line stand before its signs.
const MARGIN: usize = 7;

/// A track in the picture.
#[derive(Clone, Copy)]
pub struct Row<'p> {
    /// Its number.
    pub track: u8,
    /// What stands before its signs.
    pub margin: &'p [u8],
    /// The signs of its sectors, from sector 0 on.
    pub signs: &'p [u8],
}

/// The number of a track's line, which stands at its beginning, two places wide; None for another line.
fn track_of(line: &str) -> Option<u8> {
    match line.as_bytes() {
        [b' ', ones @ b'0'..=b'9', b' ', ..] => Some(*ones - b'0'),
        [tens @ b'0'..=b'9', ones @ b'0'..=b'9', b' ', ..] => {
            Some(10 * (*tens - b'0') + (*ones - b'0'))
        }
        _ => None,
    }
}

/// The track of a line of the picture; None where the line isn't a track's.
pub fn row_of(line: &str) -> Option<Row<'_>> {
    Some(Row {
        track: track_of(line)?,
        margin: line.as_bytes().get(..MARGIN)?,
        signs: line.as_bytes().get(MARGIN..)?,
    })
}

/// The sign of a sector: a letter, where it is used or lost and a file has it.
fn sign_of(sign: u8, owners: &[Owner], track: u8, sector: u8) -> u8 {
    if sign == b'.' || sign == b'x' {
        return sign;
    }
    match owner_at(owners, track, sector) {
        Some(number) => letter_of(number),
        None => sign,
    }
}

/// Adds a sign, with its colour or without.
fn add_sign(text: &mut String, sign: u8, is_coloured: bool) -> Result<(), AllocError> {
    if !is_coloured {
        return text.push(char::from(sign));
    }
    text.push_str(escape_of(sign))?;
    text.push(char::from(sign))?;
    text.push_str(PLAIN)
}

/// Adds the line of a track.
fn add_row(
    text: &mut String,
    row: Row<'_>,
    owners: &[Owner],
    is_coloured: bool,
) -> Result<(), AllocError> {
    for sign in row.margin {
        text.push(char::from(*sign))?;
    }
    let mut sector: u8 = 0;
    for sign in row.signs {
        add_sign(text, sign_of(*sign, owners, row.track, sector), is_coloured)?;
        sector = sector.saturating_add(1);
    }
    text.push('\n')
}

/// Adds a line of the picture.
fn add_line(
    text: &mut String,
    line: &str,
    owners: &[Owner],
    is_coloured: bool,
) -> Result<(), AllocError> {
    if let Some(row) = row_of(line) {
        return add_row(text, row, owners, is_coloured);
    }
    text.push_str(line)?;
    text.push('\n')
}

/// Adds the line of a letter.
fn add_owner(
    alloc: Global,
    text: &mut String,
    number: usize,
    owner: &Owner,
) -> Result<(), AllocError> {
    let letter = char::from(letter_of(number));
    let name = owner.name.as_str();
    let kind = owner.kind;
    text.push_str(format!(in alloc; "{letter} \"{name}\" {kind}\n")?.as_str())
}

/// The picture of a disk's sectors with a letter for each sector of a file, and what the letters mean, in the colours of a
/// terminal or without. The one error is `AllocError`.
pub fn lettered(
    alloc: Global,
    picture: &str,
    owners: &[Owner],
    is_coloured: bool,
) -> Result<String, AllocError> {
    let mut text = String::new(alloc);
    for line in picture.lines() {
        add_line(&mut text, line, owners, is_coloured)?;
    }
    for (number, owner) in owners.iter().enumerate() {
        add_owner(alloc, &mut text, number, owner)?;
    }
    Ok(text)
}
