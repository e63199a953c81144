//! The files of GEOS.
use crate::view::Look;
use cbm_shell::texts::Charset;
use cbm_shell::{Geos, geos_of};
use cbm_volume::Entry;
use disk_basics::calls::name_text;
use disk_facts::{is_meant, kind_name};
use std::alloc::{AllocError, Global};

/// How GEOS calls the structure of a file.
fn structure_name(geos: Geos) -> &'static str {
    if geos.has_records {
        "records (VLIR)"
    } else {
        "one sequence"
    }
}

/// Adds the line of a file of GEOS.
fn add_file(
    alloc: Global,
    text: &mut Vec<u8>,
    entry: &Entry,
    geos: Geos,
    charset: Charset,
) -> Result<(), AllocError> {
    let shown = name_text(alloc, charset, entry.name())?;
    let name = shown.as_str();
    let kind = kind_name(geos.kind);
    let structure = structure_name(geos);
    let line = format!(in alloc; "GEOS \"{name}\": {kind}, {structure}\n")?;
    text.extend_from_slice(line.as_bytes())
}

/// Adds a line for each of these files that GEOS made. The one error is want of memory.
pub fn add_geos_files(
    alloc: Global,
    text: &mut Vec<u8>,
    entries: &[Entry],
    look: Look<'_>,
) -> Result<(), AllocError> {
    for entry in entries {
        match geos_of(entry) {
            Some(geos) if is_meant(entry, look.pattern) => {
                add_file(alloc, text, entry, geos, look.charset)?;
            }
            _ => {}
        }
    }
    Ok(())
}
