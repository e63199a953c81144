//! VALIDATE: the disk in order, around what GEOS keeps on it.
mod facts;
mod plan;

use self::facts::order_line;
use self::plan::{Telling, lines_of, plan_of};
use crate::shown::text_of;
use cbm_shell::{Order, ShellFault};
use disk_basics::border::has_border_files;
use disk_basics::changing::{map_around_geos, validate};
use disk_basics::host::require_own_map;
use disk_basics::{Failure, What, on_disk};
use std::alloc::Global;

/// How a disk is put in order.
#[derive(Clone, Copy)]
pub struct Ordering {
    /// What would be done is told, and nothing is changed.
    pub is_dry: bool,
    /// Blocks that GEOS uses are given back, too.
    pub is_forced: bool,
    /// What is done is told for programs.
    pub is_json: bool,
}

/// A disk in order, and how that is told.
#[derive(Drop)]
struct Ordered {
    image: Vec<u8>,
    telling: Telling,
}

/// The disk in order, in which GEOS keeps its blocks unless they are given back, too. Errors: `Geos`, where its border block has
/// files, whose blocks nothing else names; `Disk`.
fn around_geos(
    alloc: Global,
    image: &str,
    old: &[u8],
    order: Order,
    ordering: Ordering,
) -> Result<Ordered, Failure> {
    let Order { image: new, freed } = order;
    let keeps_geos = freed.takes_geos && !ordering.is_forced;
    let telling = Telling {
        freed: freed.blocks,
        is_dry: ordering.is_dry,
        keeps_geos,
    };
    if !keeps_geos {
        return Ok(Ordered {
            image: new,
            telling,
        });
    }
    if on_disk(alloc, image, has_border_files(alloc, old))? {
        return Err(Failure::named(alloc, What::Geos, image));
    }
    Ok(Ordered {
        image: on_disk(alloc, image, map_around_geos(alloc, new.as_slice()))?,
        telling,
    })
}

/// What putting a disk in order came to.
fn order_of(
    alloc: Global,
    image: &str,
    old: &[u8],
    ordering: Ordering,
) -> Result<Ordered, Failure> {
    match validate(alloc, old) {
        Ok(order) => around_geos(alloc, image, old, order, ordering),
        Err(ShellFault::Trouble(trouble)) => Err(Failure::named(
            alloc,
            What::Unmendable(trouble),
            image,
        )),
        Err(fault) => Err(Failure::named(alloc, What::Disk(fault), image)),
    }
}

/// A disk in order, and what that does.
#[derive(Drop)]
pub struct InOrder {
    /// The image.
    pub image: Vec<u8>,
    /// What is given back, and what goes: in lines, or as a line of JSON.
    pub plan: String,
}

/// What putting a disk in order does, as it is told.
fn told(
    alloc: Global,
    image: &str,
    old: &[u8],
    telling: &Telling,
    is_json: bool,
) -> Result<String, ShellFault> {
    let plan = plan_of(alloc, old, telling)?;
    if !is_json {
        return Ok(lines_of(alloc, &plan, telling)?);
    }
    let line = order_line(alloc, image, &plan, telling)?;
    Ok(text_of(alloc, line.as_slice())?)
}

/// The image put in order. Errors: `OtherMap`, where Dolphin DOS has its map on the disk; `Unmendable`, where it can't be put in
/// order; `Geos`, where blocks of files in GEOS's border block would be given back; `Disk`.
pub fn in_order(
    alloc: Global,
    image: &str,
    old: &[u8],
    ordering: Ordering,
) -> Result<InOrder, Failure> {
    require_own_map(alloc, image, old)?;
    let order = order_of(alloc, image, old, ordering)?;
    let plan = on_disk(
        alloc,
        image,
        told(alloc, image, old, &order.telling, ordering.is_json),
    )?;
    Ok(InOrder {
        image: order.image,
        plan,
    })
}
