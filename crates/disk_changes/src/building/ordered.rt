//! The order of a recipe's lines, where files stand before lines of art.
use cbm_shell::Swap;
use disk_basics::changing::swap_entries;
use disk_basics::swaps::bring;
use disk_basics::{Failure, in_memory, on_disk};
use disk_recipes::RecipeLine;
use std::alloc::{AllocError, Global};

/// Adds the numbers of the lines that are files, or of those that are art.
fn add_numbers(
    order: &mut Vec<u8>,
    lines: &[RecipeLine],
    are_files: bool,
) -> Result<(), AllocError> {
    let mut number: u8 = 0;
    for line in lines {
        if line.file.is_some() == are_files {
            order.push(number)?;
        }
        number = number.saturating_add(1);
    }
    Ok(())
}

/// Where a line stands.
fn place_of(order: &[u8], number: u8) -> usize {
    let mut found = order.len();
    for (place, other) in order.iter().enumerate() {
        if *other == number {
            found = place;
        }
    }
    found
}

/// The swaps that bring the lines into their order.
fn ordering(alloc: Global, lines: &[RecipeLine]) -> Result<Vec<Swap>, AllocError> {
    let mut order = Vec::new(alloc);
    let mut swaps = Vec::new(alloc);
    add_numbers(&mut order, lines, true)?;
    add_numbers(&mut order, lines, false)?;
    let mut number: u8 = 0;
    for place in 0..lines.len() {
        let from = place_of(order.as_slice(), number);
        bring(&mut swaps, &mut order, from, place)?;
        number = number.saturating_add(1);
    }
    Ok(swaps)
}

/// The image with the lines in their order. Errors: `Disk`, `NoMemory`.
pub fn ordered(
    alloc: Global,
    image: &str,
    lines: &[RecipeLine],
    bytes: &[u8],
) -> Result<Vec<u8>, Failure> {
    let swaps = in_memory(ordering(alloc, lines))?;
    on_disk(alloc, image, swap_entries(alloc, bytes, swaps.as_slice()))
}
