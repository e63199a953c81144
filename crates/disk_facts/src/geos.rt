//! The types of GEOS's files.

/// How GEOS calls the type of a file.
pub fn kind_name(kind: u8) -> &'static str {
    match kind {
        1 => "BASIC program",
        2 => "assembler program",
        3 => "data",
        4 => "system file",
        5 => "desk accessory",
        6 => "application",
        7 => "document",
        8 => "font",
        9 => "printer driver",
        10 => "input driver",
        11 => "disk driver",
        12 => "boot program",
        13 => "temporary file",
        14 => "auto-start program",
        15 => "input driver of a C128",
        _ => "unknown type",
    }
}
