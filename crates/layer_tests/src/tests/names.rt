//! Names of this computer's files that aren't UTF-8, and how they are written.
use host_files::{name_of, text_of};
use std::test::Fail;

/// Names, and how they are written.
const NAMES: [(&[u8], &str); 6] = [
    (b"game.d64", "game.d64"),
    (b"na\xefve.d64", "na\\xEFve.d64"),
    (b"a\nb.d64", "a\\x0Ab.d64"),
    (b"a\\b", "a\\b"),
    (b"a\\x41", "a\\x5Cx41"),
    (b"\xc3\x9c", "Ü"),
];

#[test]
fn names_are_written_and_read(rt: HostRuntime) -> Result<(), Fail> {
    for (name, text) in &NAMES {
        let written = text_of(rt.alloc(), name)?;
        assert_eq!(rt; written.as_str(), *text);
        let read = name_of(rt.alloc(), *text)?;
        assert_eq!(rt; read.as_slice(), *name);
    }
    Ok(())
}
