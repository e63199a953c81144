//! What putting a disk in order does, for programs.
use super::plan::{Plan, Step, Telling};
use disk_json::{Named, Sector, line, sectors_of};
use serde::Serialize;
use std::alloc::{AllocError, Global};

/// A file of GEOS and its blocks.
#[derive(Drop, Serialize)]
struct GeosFacts<'a> {
    slot: usize,
    name: &'a str,
    petscii: &'a str,
    sectors: Vec<Sector>,
}

/// What putting a disk in order does.
#[derive(Drop, Serialize)]
struct OrderReport<'a> {
    image: &'a str,
    dry_run: bool,
    freed: Vec<Sector>,
    deleted: Vec<&'a Named>,
    kept: Vec<Sector>,
    geos: Vec<GeosFacts<'a>>,
    border: Option<Sector>,
}

impl<'a> OrderReport<'a> {
    /// Adds a step.
    fn add(&mut self, alloc: Global, step: &'a Step) -> Result<(), AllocError> {
        match step {
            Step::Geos(file, places) => {
                let facts = GeosFacts {
                    slot: file.slot,
                    name: file.name.as_str(),
                    petscii: file.petscii.as_str(),
                    sectors: sectors_of(alloc, places.as_slice())?,
                };
                self.geos.push(facts).map_err(AllocError::from)
            }
            Step::Unclosed(file) => self.deleted.push(file).map_err(AllocError::from),
            Step::Border(at) => {
                self.border = Some(Sector::at(*at));
                Ok(())
            }
            Step::Others(_) => Ok(()),
        }
    }
}

/// What putting a disk in order does, as a line of JSON. The one error is want of memory.
pub fn order_line(
    alloc: Global,
    image: &str,
    plan: &Plan,
    telling: &Telling,
) -> Result<Vec<u8>, AllocError> {
    let freed = plan.places(alloc, telling, false)?;
    let kept = plan.places(alloc, telling, true)?;
    let mut report = OrderReport {
        image,
        dry_run: telling.is_dry,
        freed: sectors_of(alloc, freed.as_slice())?,
        deleted: Vec::new(alloc),
        kept: sectors_of(alloc, kept.as_slice())?,
        geos: Vec::new(alloc),
        border: None,
    };
    for step in plan.steps.as_slice() {
        report.add(alloc, step)?;
    }
    line(alloc, &report)
}
