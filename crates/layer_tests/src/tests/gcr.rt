use cbm_gcr::{decode5, encode4};

/// Bytes and their code, as the format's descriptions print them.
const ROWS: [([u8; 4], [u8; 5]); 4] = [
    ([0, 0, 0, 0], [0x52, 0x94, 0xa5, 0x29, 0x4a]),
    ([7, 0, 0, 0], [0x55, 0xd4, 0xa5, 0x29, 0x4a]),
    ([0x08, 0x11, 0x00, 0x12], [0x52, 0x56, 0xb5, 0x29, 0x72]),
    ([0x42, 0x41, 0x0f, 0x0f], [0x74, 0x9c, 0xb5, 0x55, 0x55]),
];

fn is_coded(bytes: [u8; 4], coded: [u8; 5]) -> bool {
    encode4(&bytes) == coded && decode5(&coded) == Some(bytes)
}

#[test]
fn worked_rows(rt: HostRuntime) {
    for (bytes, coded) in ROWS {
        assert!(rt; is_coded(bytes, coded));
    }
}

fn is_no_code(coded: [u8; 5]) -> bool {
    decode5(&coded).is_none()
}

#[test]
fn no_code(rt: HostRuntime) {
    for coded in [
        [0xff; 5],
        [0; 5],
        // The first nibble's five bits are 01000, which no nibble has.
        [0x42, 0x94, 0xa5, 0x29, 0x4a],
        // The last nibble's are 00000.
        [0x52, 0x94, 0xa5, 0x29, 0x40],
    ] {
        assert!(rt; is_no_code(coded));
    }
}

/// The five bits of a nibble in the format's table, one row for each four nibbles.
const TABLE: [&str; 16] = [
    "01010", "01011", "10010", "10011", "01110", "01111", "10110", "10111", "01001", "11001",
    "11010", "11011", "01101", "11101", "11110", "10101",
];

/// The code of one byte at one of the four places of a group, a bit at a time, by the table.
fn bit_of_code(bytes: &[u8; 4], place: usize) -> bool {
    let byte = match place / 10 {
        0 => bytes[0],
        1 => bytes[1],
        2 => bytes[2],
        _ => bytes[3],
    };
    let nibble = if place % 10 < 5 { byte / 16 } else { byte % 16 };
    TABLE[nibble as usize].as_bytes().get(place % 5) == Some(&b'1')
}

/// Whether the code of four bytes is the table's, bit by bit, and reads as the bytes.
fn is_in_table(bytes: [u8; 4]) -> bool {
    let coded = encode4(&bytes);
    let mut all = decode5(&coded) == Some(bytes);
    for bit in 0..40usize {
        let set = coded[bit / 8] >> (7 - bit % 8) & 1 == 1;
        all = set == bit_of_code(&bytes, bit) && all;
    }
    all
}

#[test]
fn every_byte_at_every_place(rt: HostRuntime) {
    for byte in 0..=255u8 {
        assert!(rt; is_in_table([byte, 0xa5, 0x96, 0xff]));
        assert!(rt; is_in_table([0x3c, byte, 0x96, 0xff]));
        assert!(rt; is_in_table([0x3c, 0xa5, byte, 0xff]));
        assert!(rt; is_in_table([0x3c, 0xa5, 0x96, byte]));
    }
}
