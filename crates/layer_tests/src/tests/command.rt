//! Texts and their answers, taken from the rules.
use super::holds;
use cbm_command::{Command, Mode, Opening, Refusal, matches, parse_command, parse_open};
use cbm_file::FileType;
use std::process::Abort;

/// The number of a refusal, or 0.
fn number<T: Drop>(answer: Result<T, Refusal>) -> u8 {
    match answer {
        Ok(_) => 0,
        Err(refusal) => refusal.number(),
    }
}

/// A channel, the text of an OPEN, and the number of its refusal, 0 for none.
const OPENINGS: &[(u8, &[u8], u8)] = &[
    // more than 58 bytes, before all else
    (2, &[b'A'; 59], 32),
    (2, &[b'#'; 59], 32),
    (2, &[b'A'; 58], 0),
    // direct channels
    (2, b"#", 70),
    (0, b"#5", 70),
    // no name
    (2, b"", 34),
    (2, b"0:", 34),
    (2, b",S", 34),
    (2, b":,S,W", 34),
    (2, b"@:", 34),
    (2, b"\xa0A", 34),
    (0, b"$:", 34),
    (0, b"$0:,A", 34),
    (0, b"$:\xa0,A", 34),
    // heads
    (2, b"1:A", 74),
    (2, b"9:A", 74),
    (2, b"@1:A", 74),
    (2, b"01:A", 74),
    (2, b"1X:A", 74),
    (2, b"00:A", 30),
    (2, b"0X:A", 30),
    (2, b"X1:A", 30),
    (2, b"0@:A", 30),
    (2, b"@@:A", 30),
    (2, b"@0:A,W", 0),
    (2, b"A,0:B", 30),
    (2, b"@A", 0),
    // pieces
    (2, b"A,", 30),
    (2, b"A,X", 30),
    (2, b"A,S,", 30),
    (2, b"A,P,Q", 30),
    (2, b"A,SEQ,WRITE", 0),
    (2, b"A,L,\x64,Q", 0),
    (2, b"A,L,,", 0),
    (2, b"A,W,L", 0),
    // a pattern where a name is written
    (2, b"A*,W", 33),
    (2, b"A?,S,W", 33),
    (1, b"A*", 33),
    (1, b"A?,R", 33),
    (2, b"*,L,\x64", 33),
    (0, b"A*,L", 33),
    (0, b"A*,W", 0),
    (2, b"A*,A", 33),
    (2, b"A?,P,A", 33),
    (2, b"A,A", 0),
    // listings
    (0, b"$", 0),
    (0, b"$0", 0),
    (0, b"$:A*", 0),
    (0, b"$0:A*", 0),
    (0, b"$1", 74),
    (0, b"$7:A", 74),
    (0, b"$01:A", 74),
    (0, b"$A", 30),
    (0, b"$0A", 30),
    (0, b"$00:A", 30),
    (0, b"$,", 30),
    (0, b"$:A,B", 30),
    (0, b"$:A=P", 30),
    (1, b"$", 30),
    (2, b"$:A", 30),
    // two faults: the left one answers, and a pattern only after the whole text
    (2, b"1:,X", 74),
    (2, b"0X:,X", 30),
    (2, b":,X", 34),
    (2, b"A*,X,W", 30),
    (1, b"A*,X", 30),
    (2, b"1:A*,W", 74),
    (0, b"$1:A,B", 74),
    (0, b"$A:", 30),
];

fn opens(channel: u8, text: &[u8], wanted: u8) -> bool {
    number(parse_open(channel, text)) == wanted
}

fn try_openings(rt: &impl Abort, rows: &[(u8, &[u8], u8)]) {
    for (channel, text, wanted) in rows {
        holds(rt, opens(*channel, text, *wanted), text);
    }
}

#[test]
fn refuses_openings(rt: HostRuntime) {
    try_openings(&rt, OPENINGS);
}

const READ: Mode = Mode::Read;

const WRITE: Mode = Mode::Write;

const APPEND: Mode = Mode::Append;

const PRG: Option<FileType> = Some(FileType::Prg);

const SEQ: Option<FileType> = Some(FileType::Seq);

const USR: Option<FileType> = Some(FileType::Usr);

const REL: Option<FileType> = Some(FileType::Rel);

/// A channel, a text, and what is read from it: whether @ stands before the name, the name, the mode, the type and the
/// length of a record.
type FileRow<'a> = (u8, &'a [u8], bool, &'a [u8], Mode, Option<FileType>, u8);

const FILES: [FileRow<'static>; 20] = [
    (0, b"HELLO", false, b"HELLO", READ, PRG, 0),
    (1, b"HELLO", false, b"HELLO", WRITE, PRG, 0),
    (0, b"A,S,W", false, b"A", READ, SEQ, 0),
    (1, b"A,U,R", false, b"A", WRITE, USR, 0),
    (2, b"A", false, b"A", READ, None, 0),
    (2, b"A,W", false, b"A", WRITE, SEQ, 0),
    (14, b"A,A", false, b"A", APPEND, None, 0),
    (2, b"A,M", false, b"A", READ, None, 0),
    (2, b"A,S,P,W,A", false, b"A", APPEND, PRG, 0),
    (2, b"@0:A,P,W", true, b"A", WRITE, PRG, 0),
    (2, b"@:A", true, b"A", READ, None, 0),
    (2, b"0:A:B", false, b"A:B", READ, None, 0),
    (2, b"A\xa0B,S", false, b"A", READ, SEQ, 0),
    (
        2,
        b"ABCDEFGHIJKLMNOPQ,S",
        false,
        b"ABCDEFGHIJKLMNOP",
        READ,
        SEQ,
        0,
    ),
    (2, b"R,L,\x64", false, b"R", READ, REL, 100),
    (2, b"R,LX,\x64", false, b"R", READ, REL, 100),
    (2, b"R,L", false, b"R", READ, REL, 0),
    (2, b"R,L,", false, b"R", READ, REL, 0),
    (2, b"R,L,,W", false, b"R", READ, REL, 44),
    (2, b"R,W,L,\xfe", false, b"R", WRITE, REL, 254),
];

fn is_file((channel, text, has_at, name, mode, kind, record_length): FileRow<'_>) -> bool {
    match parse_open(channel, text) {
        Ok(Opening::File(read)) => {
            let is_named = read.has_at == has_at && read.name.bytes() == name;
            let is_typed = read.mode == mode && read.kind == kind;
            is_named && is_typed && read.record_length == record_length
        }
        _ => false,
    }
}

#[test]
fn reads_files(rt: HostRuntime) {
    for row in FILES {
        holds(&rt, is_file(row), row.1);
    }
}

/// The text of a listing, and the pattern in it.
const LISTINGS: [(&[u8], &[u8]); 5] = [
    (b"$", b"*"),
    (b"$0", b"*"),
    (b"$:A?C*", b"A?C*"),
    (b"$0:A\xa0B", b"A"),
    (b"$:ABCDEFGHIJKLMNOPQ", b"ABCDEFGHIJKLMNOP"),
];

fn is_listing(text: &[u8], pattern: &[u8]) -> bool {
    match parse_open(0, text) {
        Ok(Opening::Listing(name)) => name.bytes() == pattern,
        _ => false,
    }
}

#[test]
fn reads_listings(rt: HostRuntime) {
    for (text, pattern) in LISTINGS {
        holds(&rt, is_listing(text, pattern), text);
    }
}

/// A command, and the number of its refusal, 0 for none.
const COMMANDS: &[(&[u8], u8)] = &[
    (&[b'S'; 59], 32),
    (&[b'?'; 59], 32),
    (&[b'I'; 58], 0),
    (b"", 31),
    (b"X", 31),
    (b"B-R 2 0 1 0", 31),
    (b"UJ", 31),
    (b"M-R", 31),
    (b"&", 31),
    (b"n0:a", 31),
    // no colon, and heads
    (b"S0", 34),
    (b"N", 34),
    (b"RENAME", 34),
    (b"S1:A", 74),
    (b"N01:A", 74),
    (b"N00:A", 30),
    (b"N0A:A", 30),
    (b"NEW0:A,BC", 0),
    (b"N-:A", 30),
    (b"V", 0),
    (b"VALIDATE0", 0),
    (b"V0:1", 0),
    (b"V1", 74),
    (b"V0x", 30),
    (b"I0", 0),
    (b"I2", 74),
    (b"I!", 30),
    // N
    (b"N:", 34),
    (b"N0:,AB", 34),
    (b"N0:A*", 33),
    (b"N0:A?,AB", 33),
    (b"N0:A,", 30),
    (b"N0:A,B", 30),
    (b"N0:A,BCD", 0),
    (b"N0:*,B", 33),
    // S
    (b"S:", 34),
    (b"S:A,", 34),
    (b"S:A,,B", 34),
    (b"S0:A,0:B,*", 0),
    (b"S0:A,1:B", 74),
    (b"S0:,1:B", 74),
    (b"S0:1:A", 0),
    (
        b"S0:,,,,,,,,,,,,,,,,,,,,,,,,,,,,,,,,,,,,,,,,,,,,,,,,,,,,,,,",
        34,
    ),
    // R
    (b"R:A", 34),
    (b"R:=A", 34),
    (b"R:A=", 34),
    (b"R:A=0:", 34),
    (b"R:A=B*", 33),
    (b"R:A?=B", 33),
    (b"R:*=", 34),
    (b"R:A=2:B", 74),
    (b"R:=2:", 74),
    (b"R:A=B", 0),
    (b"R0:1:A=0:B", 0),
    // C
    (b"C:A", 34),
    (b"C:A=", 34),
    (b"C:=B", 34),
    (b"C:A=B,,C", 34),
    (b"C:A=B*", 33),
    (b"C:A=B,C?,D,E,F", 33),
    (b"C:A=B,C,D,E,F", 30),
    (b"C:A=B,C,D,E", 0),
    (b"C:*=B,,C", 34),
    (b"C:A=B,C,D,E,3:F", 74),
    // P
    (b"P", 30),
    (b"P\x62\x01", 30),
    (b"P\x62\x01\x00", 0),
    (b"P\x62\x01\x00\x01\x02\x03", 0),
];

fn commands(text: &[u8], wanted: u8) -> bool {
    number(parse_command(text)) == wanted
}

fn try_commands(rt: &impl Abort, rows: &[(&[u8], u8)]) {
    for (text, wanted) in rows {
        holds(rt, commands(text, *wanted), text);
    }
}

#[test]
fn refuses_commands(rt: HostRuntime) {
    try_commands(&rt, COMMANDS);
}

/// A command P, its channel, record and place.
const POSITIONS: [(&[u8], u8, u16, u8); 4] = [
    (b"P\x62\x03\x00\x01", 2, 3, 1),
    (b"P\x02\x00\x00\x00", 2, 1, 1),
    (b"P\xfe\x92\x02", 14, 658, 1),
    (b"P\x6f\xff\xff\xfe\x07", 15, 65535, 254),
];

fn is_position((text, channel, record, place): (&[u8], u8, u16, u8)) -> bool {
    match parse_command(text) {
        Ok(Command::Position(c, r, p)) => c == channel && r == record && p == place,
        _ => false,
    }
}

#[test]
fn reads_positions(rt: HostRuntime) {
    for row in POSITIONS {
        holds(&rt, is_position(row), row.0);
    }
}

fn is_copy(text: &[u8], new: &[u8], names: &[&[u8]; 3]) -> bool {
    match parse_command(text) {
        Ok(Command::Copy(name, sources)) => {
            let mut same = name.bytes() == new && sources.as_slice().len() == 3;
            for (source, wanted) in sources.as_slice().iter().zip(names) {
                same = same && source.bytes() == *wanted;
            }
            same
        }
        _ => false,
    }
}

fn is_new(text: &[u8], new: &[u8], wanted: Option<[u8; 2]>) -> bool {
    match parse_command(text) {
        Ok(Command::New(name, id)) => name.bytes() == new && id == wanted,
        _ => false,
    }
}

#[test]
fn reads_names(rt: HostRuntime) {
    assert!(rt; is_copy(b"COPY0:D=0:A,C,0:D:E", b"D", &[b"A", b"C", b"D:E"]));
    assert!(rt; is_new(b"N0:TEST,ABC", b"TEST", Some(*b"AB")));
}

/// A pattern, a name, and whether they match.
const MATCHES: [(&[u8], &[u8], bool); 18] = [
    (b"", b"", true),
    (b"", b"A", false),
    (b"A", b"A", true),
    (b"A", b"AB", false),
    (b"AB", b"A", false),
    (b"*", b"", true),
    (b"*", b"ABC", true),
    (b"A*", b"A", true),
    (b"A*", b"B", false),
    (b"A*C", b"AB", true),
    (b"?", b"", false),
    (b"?", b"A", true),
    (b"A?", b"A", false),
    (b"?B", b"AB", true),
    (b"?B", b"AC", false),
    (b"A?C*", b"ABCD", true),
    (b"A", b"?", false),
    (b"A", b"*", false),
];

#[test]
fn matches_names(rt: HostRuntime) {
    for (pattern, name, wanted) in MATCHES {
        holds(&rt, matches(pattern, name) == wanted, pattern);
    }
}
