//! Sectors in words.
use cbm_medium::Address;
use std::alloc::{AllocError, Global};

/// How many sectors make a range at least.
const RANGE: usize = 3;

/// How many of these sectors, from the first on, follow each other on one track.
fn run_length(places: &[Address]) -> usize {
    let Some(first) = places.first() else {
        return 0;
    };
    let track = first.track();
    let mut sector = first.sector();
    let mut count: usize = 0;
    for at in places {
        if at.track() != track || at.sector() != sector {
            break;
        }
        sector = sector.saturating_add(1);
        count = count.saturating_add(1);
    }
    count
}

/// Adds a sector after a space.
fn add_place(alloc: Global, text: &mut String, at: Address) -> Result<(), AllocError> {
    let track = at.track();
    let sector = at.sector();
    text.push_str(format!(in alloc; " {track}/{sector}")?.as_str())
}

/// Adds sectors that follow each other, as a range if they are three or more.
fn add_run(alloc: Global, text: &mut String, run: &[Address]) -> Result<(), AllocError> {
    if let (Some(first), Some(last)) = (run.first(), run.get(run.len().saturating_sub(1)))
        && run.len() >= RANGE
    {
        add_place(alloc, text, *first)?;
        let end = last.sector();
        return text.push_str(format!(in alloc; "-{end}")?.as_str());
    }
    for at in run {
        add_place(alloc, text, *at)?;
    }
    Ok(())
}

/// Adds sectors, each after a space, as 1/0; three or more that follow each other on a track are a range, as 1/0-20. The one error is want
/// of memory.
pub fn add_sectors(alloc: Global, text: &mut String, places: &[Address]) -> Result<(), AllocError> {
    let mut rest = places;
    for _ in 0..places.len() {
        let count = run_length(rest);
        add_run(alloc, text, rest.get(..count).unwrap_or(&[]))?;
        rest = rest.get(count..).unwrap_or(&[]);
    }
    Ok(())
}
