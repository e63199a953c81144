//! A listing, byte by byte.
use cbm_listing::{Entry, FileType, Listing};

/// The line of a file in a listing by itself, without the title's.
fn line_of(entry: &Entry<'_>, shown: &mut [u8; 32]) {
    let mut listing = Listing::begin(&[b' '; 16], &[b' '; 5]);
    if entry.name.len() <= 16 {
        listing.line(entry);
    }
    for _i in 0..32u8 {
        let _ = listing.next_byte();
    }
    for place in shown {
        *place = listing.next_byte().unwrap_or(0);
    }
}

/// The listing of a formatted disk.
fn formatted() -> Listing {
    let mut listing = Listing::begin(
        b"TEST\xa0\xa0\xa0\xa0\xa0\xa0\xa0\xa0\xa0\xa0\xa0\xa0",
        b"AB\xa02A",
    );
    listing.finish(664);
    listing
}

const FORMATTED: &[u8] =
    b"\x01\x04\x01\x01\x00\x00\x12\"TEST            \" AB 2A\x00\x01\x01\x98\x02BLOCKS FREE.             \x00\x00\x00";

/// Whether those bytes come one by one, and then none, however often one asks.
fn gives(listing: &mut Listing, wanted: &[u8]) -> bool {
    let mut same = true;
    for byte in wanted {
        same = listing.next_byte() == Some(*byte) && same;
    }
    let end = listing.next_byte() == None;
    same && end && listing.next_byte() == None
}

fn is_left(listing: &Listing, wanted: &[u8]) -> bool {
    listing.left() == wanted
}

#[test]
fn lists_a_formatted_disk(rt: HostRuntime) {
    let mut listing = formatted();
    assert!(rt; is_left(&listing, FORMATTED));
    assert!(rt; gives(&mut listing, FORMATTED));
}

/// An entry's blocks, name, type, whether it is closed and locked, and its line: the number, and the text.
type Row<'a> = (
    u16,
    &'a [u8],
    Option<FileType>,
    bool,
    bool,
    [u8; 2],
    &'a [u8; 27],
);

const FILES: [Row<'static>; 7] = [
    (
        1,
        b"HELLO",
        Some(FileType::Prg),
        true,
        false,
        [1, 0],
        b"   \"HELLO\"            PRG  ",
    ),
    (
        0,
        b"HELLO",
        Some(FileType::Prg),
        false,
        false,
        [0, 0],
        b"   \"HELLO\"           *PRG  ",
    ),
    (
        9,
        b"A",
        Some(FileType::Seq),
        true,
        true,
        [9, 0],
        b"   \"A\"                SEQ< ",
    ),
    (
        10,
        b"A",
        Some(FileType::Usr),
        true,
        false,
        [10, 0],
        b"  \"A\"                USR   ",
    ),
    (
        99,
        b"",
        Some(FileType::Del),
        true,
        false,
        [99, 0],
        b"  \"\"                 DEL   ",
    ),
    (
        100,
        b"ABCDEFGHIJKLMNOP",
        Some(FileType::Rel),
        false,
        true,
        [100, 0],
        b" \"ABCDEFGHIJKLMNOP\"*REL<   ",
    ),
    (
        664,
        b"A\xa0B",
        None,
        true,
        false,
        [0x98, 2],
        b" \"A\"                ???    ",
    ),
];

fn is_shown((blocks, name, kind, closed, locked, number, text): Row<'_>) -> bool {
    let mut shown = [0; 32];
    let entry = Entry {
        blocks,
        name,
        kind,
        closed,
        locked,
    };
    line_of(&entry, &mut shown);
    let [low, high] = number;
    shown.starts_with(&[1, 1, low, high]) && shown[4..].starts_with(text) && shown[31] == 0
}

#[test]
fn shows_files(rt: HostRuntime) {
    for row in FILES {
        assert!(rt; is_shown(row));
    }
}

const ONE: Entry<'static> = Entry {
    blocks: 1,
    name: b"A",
    kind: Some(FileType::Prg),
    closed: true,
    locked: false,
};

/// Adds a line if there is room for it.
fn is_added(listing: &mut Listing) -> bool {
    let has_room = listing.has_room();
    if has_room {
        listing.line(&ONE);
    }
    has_room
}

/// How long a listing is at its end, and whether it has room before and after it.
fn end_of(listing: &mut Listing) -> (bool, usize, bool) {
    let before = listing.has_room();
    if before {
        listing.finish(520);
    }
    (before, listing.left().len(), listing.has_room())
}

#[test]
fn holds_144_files(rt: HostRuntime) {
    let mut listing = Listing::begin(&[b' '; 16], &[b' '; 5]);
    for _i in 0..144u8 {
        assert!(rt; is_added(&mut listing));
    }
    assert!(rt; end_of(&mut listing) == (true, 4672, false));
}
