//! The picture of a disk's sectors as SVG: a line for each track, a square for each sector.
use crate::colour::{fill_of, meaning_of};
use crate::grid::{Row, row_of};
use crate::owner::{Owner, owner_at};
use std::alloc::{AllocError, Global};

/// How far squares stand from each other.
const STEP: u32 = 16;

/// Where the first square of a line stands.
const LEFT: u32 = 32;

/// A picture's beginning, for 21 sectors and up to 40 tracks.
const HEAD: &str =
    "<svg xmlns=\"http://www.w3.org/2000/svg\" width=\"368\" height=\"664\" font-family=\"monospace\" font-size=\"11\">\n";

/// Its end.
const FOOT: &str = "</svg>\n";

/// Adds a character of a text, as XML has it.
fn add_char(text: &mut String, letter: char) -> Result<(), AllocError> {
    match letter {
        '<' => text.push_str("&lt;"),
        '&' => text.push_str("&amp;"),
        '"' => text.push_str("&quot;"),
        _ => text.push(letter),
    }
}

/// Adds a text.
fn add_text(text: &mut String, added: &str) -> Result<(), AllocError> {
    for letter in added.chars() {
        add_char(text, letter)?;
    }
    Ok(())
}

/// The colour of a sector: that of files, where one has it.
fn colour_of(sign: u8, owner: Option<&Owner>) -> &'static str {
    match owner {
        Some(_) if sign != b'x' => fill_of(b'A'),
        _ => fill_of(sign),
    }
}

/// Adds what a sector is: its file, or its state.
fn add_title(
    alloc: Global,
    text: &mut String,
    track: u8,
    sector: u8,
    sign: u8,
    owner: Option<&Owner>,
) -> Result<(), AllocError> {
    text.push_str(format!(in alloc; "<title>{track}/{sector} ")?.as_str())?;
    match owner {
        Some(owner) => add_text(text, owner.name.as_str())?,
        None => add_text(text, meaning_of(sign))?,
    }
    text.push_str("</title>")
}

/// Adds the square of a sector.
fn add_square(
    alloc: Global,
    text: &mut String,
    track: u8,
    sector: u8,
    sign: u8,
    owners: &[Owner],
) -> Result<(), AllocError> {
    let owner = match owner_at(owners, track, sector) {
        Some(number) if sign != b'.' => owners.get(number),
        _ => None,
    };
    let x = LEFT.wrapping_add(STEP.wrapping_mul(u32::from(sector)));
    let y = STEP.wrapping_mul(u32::from(track));
    let fill = colour_of(sign, owner);
    text.push_str(format!(in alloc;
        "<rect x=\"{x}\" y=\"{y}\" width=\"14\" height=\"14\" fill=\"{fill}\">"
    )?.as_str())?;
    add_title(alloc, text, track, sector, sign, owner)?;
    text.push_str("</rect>\n")
}

/// Adds the number of a track.
fn add_number(alloc: Global, text: &mut String, track: u8) -> Result<(), AllocError> {
    let y = STEP.wrapping_mul(u32::from(track)).wrapping_add(11);
    text.push_str(format!(in alloc; "<text x=\"8\" y=\"{y}\">{track}</text>\n")?.as_str())
}

/// Adds the line of a track.
fn add_track(
    alloc: Global,
    text: &mut String,
    row: Row<'_>,
    owners: &[Owner],
) -> Result<(), AllocError> {
    add_number(alloc, text, row.track)?;
    let mut sector: u8 = 0;
    for sign in row.signs {
        add_square(alloc, text, row.track, sector, *sign, owners)?;
        sector = sector.saturating_add(1);
    }
    Ok(())
}

/// The picture of a disk's sectors as SVG: a square for each sector, with the colour of its state, and as its title its file.
/// The one error is `AllocError`.
pub fn svg_of(alloc: Global, picture: &str, owners: &[Owner]) -> Result<String, AllocError> {
    let mut text = String::from_str(alloc, HEAD)?;
    for line in picture.lines() {
        if let Some(row) = row_of(line) {
            add_track(alloc, &mut text, row, owners)?;
        }
    }
    text.push_str(FOOT)?;
    Ok(text)
}
