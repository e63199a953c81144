//! What GEOS keeps of a file beside the drive's chain, and isn't taken out.
use cbm_shell::{Geos, geos_of};
use cbm_volume::Entry;
use std::io;

/// Whether GEOS keeps an entry's file in records.
pub fn is_kept_in_records(entry: &Entry) -> bool {
    geos_of(entry).is_some_and(|geos| geos.has_records)
}

/// Reports what isn't taken out of a file of GEOS.
pub fn tell_geos(rt: &impl Eprint, name: &str, geos: Geos) -> io::Result<()> {
    if geos.has_records {
        return eprintln!(rt;
            "disk1541: \"{name}\" is a GEOS file with records: only its index was extracted"
        );
    }
    eprintln!(rt; "disk1541: \"{name}\" is a GEOS file: its info block was not extracted")
}
