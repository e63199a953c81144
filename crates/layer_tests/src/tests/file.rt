//! The types of files, as the directory's table has them.
use cbm_file::FileType;

fn is_type(kind: FileType, number: u8, text: &[u8; 3]) -> bool {
    let named = kind.text().as_slice() == text.as_slice();
    named && kind.number() == number && FileType::from_number(number) == Some(kind)
}

#[test]
fn numbers_types(rt: HostRuntime) {
    for (kind, number, text) in [
        (FileType::Del, 0, b"DEL"),
        (FileType::Seq, 1, b"SEQ"),
        (FileType::Prg, 2, b"PRG"),
        (FileType::Usr, 3, b"USR"),
        (FileType::Rel, 4, b"REL"),
    ] {
        assert!(rt; is_type(kind, number, text));
    }
    assert!(rt; FileType::from_number(5) == None);
}
