//! Files that stand at other places in the second directory: as few as there can be.
use crate::pairs::Pair;
use std::alloc::{AllocError, Global};

/// The slot of a pair in the second directory.
fn second_of(pairs: &[Pair], number: usize) -> usize {
    match pairs.get(number) {
        Some(pair) => pair.second,
        None => 0,
    }
}

/// How many pairs from one on may stay where they are, with this one: one more than the most of a later pair that comes after it
/// in the second directory, too.
fn staying_from(pairs: &[Pair], later: &[usize], number: usize) -> usize {
    let own = second_of(pairs, number);
    let mut most: usize = 0;
    for (other, count) in later.iter().enumerate() {
        if other > number && second_of(pairs, other) > own && *count > most {
            most = *count;
        }
    }
    most.saturating_add(1)
}

/// For each pair how many may stay from it on.
fn staying(alloc: Global, pairs: &[Pair]) -> Result<Vec<usize>, AllocError> {
    let mut counts = vec![in alloc; 0usize; pairs.len()]?;
    for number in (0..pairs.len()).rev() {
        let count = staying_from(pairs, counts.as_slice(), number);
        if let Some(place) = counts.as_mut_slice().get_mut(number) {
            *place = count;
        }
    }
    Ok(counts)
}

/// The greatest of these.
fn greatest(counts: &[usize]) -> usize {
    let mut most: usize = 0;
    for count in counts {
        most = most.max(*count);
    }
    most
}

/// For each pair whether it moved: the others are the most that stand in the same order in both directories, and of several such
/// choices the one with the earliest pairs. The one error is want of memory.
pub fn moved(alloc: Global, pairs: &[Pair]) -> Result<Vec<bool>, AllocError> {
    let counts = staying(alloc, pairs)?;
    let mut moved = Vec::new(alloc);
    let mut wanted = greatest(counts.as_slice());
    let mut least: usize = 0;
    for (pair, count) in pairs.iter().zip(counts.as_slice().iter()) {
        let stays = *count == wanted && pair.second >= least;
        if stays {
            wanted = wanted.saturating_sub(1);
            least = pair.second.saturating_add(1);
        }
        moved.push(!stays).map_err(AllocError::from)?;
    }
    Ok(moved)
}
