// A drive's DOS on the bus, act by act: drive 8, whose disk has nothing but what NEW makes.

use crate::disks::{desk, empty_disk};
use cbm_d64::D64Disk;
use cbm_drive::{Act, Desk, Machine};
use std::alloc::Global;
use std::process::Abort;

fn switched_on(rt: &impl Abort, alloc: Global) -> Desk<D64Disk> {
    desk(rt, alloc, empty_disk(rt, alloc), 8)
}

// Bytes in attention, and ATN free after them.
fn attention(desk: &mut Desk<D64Disk>, bytes: &[u8]) {
    desk.act(Act::Pulled);
    for byte in bytes {
        desk.act(Act::Attention(*byte));
    }
    desk.act(Act::Released);
}

// Bytes to a listener, the last of them with EOI.
fn send(desk: &mut Desk<D64Disk>, bytes: &[u8]) {
    let last = bytes.len().wrapping_sub(1);
    for (place, byte) in bytes.iter().enumerate() {
        desk.act(Act::Heard(*byte, place == last));
    }
}

// Whether a talker says this byte next, last or not; then it is taken.
fn says(desk: &mut Desk<D64Disk>, byte: u8, last: bool) -> bool {
    let said = desk.peek();
    desk.act(Act::Said(byte, last));
    said == Some((byte, last))
}

fn is_silent(desk: &Desk<D64Disk>) -> bool {
    desk.peek().is_none()
}

// What a talker says up to its last byte is this.
fn talks(rt: &impl Abort, desk: &mut Desk<D64Disk>, wanted: &[u8]) {
    let end = wanted.len().wrapping_sub(1);
    for (place, byte) in wanted.iter().enumerate() {
        assert!(rt; says(desk, *byte, place == end));
    }
}

// The status line, by TALK on channel 15.
fn tells(rt: &impl Abort, desk: &mut Desk<D64Disk>, line: &[u8]) {
    attention(desk, &[0x48, 0x6f]);
    talks(rt, desk, line);
    attention(desk, &[0x5f]);
    assert!(rt; is_silent(desk));
}

// LISTEN, a secondary address, bytes, UNLISTEN.
fn sends(desk: &mut Desk<D64Disk>, secondary: u8, bytes: &[u8]) {
    attention(desk, &[0x28, secondary]);
    send(desk, bytes);
    attention(desk, &[0x3f]);
}

#[test]
fn a_file_is_written_and_read(rt: HostRuntime) {
    let mut desk = switched_on(&rt, rt.alloc());
    tells(&rt, &mut desk, b"73,CBM DOS V2.6 1541,00,00\r");
    sends(&mut desk, 0xf2, b"A,S,W");
    sends(&mut desk, 0x62, b"HELLO");
    attention(&mut desk, &[0x28, 0xe2, 0x3f]);
    tells(&rt, &mut desk, b"00, OK,00,00\r");
    sends(&mut desk, 0xf3, b"A,S,R");
    attention(&mut desk, &[0x48, 0x63]);
    talks(&rt, &mut desk, b"HELLO");
    assert!(rt; is_silent(&desk));
    attention(&mut desk, &[0x5f]);
    attention(&mut desk, &[0x28, 0xe3, 0x3f]);
    tells(&rt, &mut desk, b"00, OK,00,00\r");
}

// The status after the name of a file that isn't there, and ATN pulled after it or not.
fn code_after_name(mut desk: Desk<D64Disk>, is_pulled: bool) -> u8 {
    attention(&mut desk, &[0x28, 0xf2]);
    send(&mut desk, b"NONE");
    if is_pulled {
        desk.act(Act::Pulled);
    }
    desk.dos().status_code()
}

// A name is opened at the pull of ATN after it, and not before.
#[test]
fn a_name_is_opened_when_atn_is_pulled(rt: HostRuntime) {
    for (is_pulled, code) in [(false, 73), (true, 62)] {
        assert!(rt; code_after_name(switched_on(&rt, rt.alloc()), is_pulled) == code);
    }
}

// A command's bytes go to channel 15 by $6F as well as by $FF.
#[test]
fn commands_are_sent_to_15(rt: HostRuntime) {
    for secondary in [0x6f, 0xff] {
        let mut desk = switched_on(&rt, rt.alloc());
        sends(&mut desk, secondary, b"I0");
        tells(&rt, &mut desk, b"00, OK,00,00\r");
    }
}

// Bytes without a secondary address, and to another device, are dropped; a talker without one has nothing to say.
#[test]
fn without_a_secondary_address_nothing_happens(rt: HostRuntime) {
    let mut desk = switched_on(&rt, rt.alloc());
    attention(&mut desk, &[0x28]);
    send(&mut desk, b"I0");
    attention(&mut desk, &[0x3f, 0x29, 0x6f]);
    send(&mut desk, b"I0");
    attention(&mut desk, &[0x3f, 0x48]);
    assert!(rt; is_silent(&desk));
    attention(&mut desk, &[0x5f]);
    tells(&rt, &mut desk, b"73,CBM DOS V2.6 1541,00,00\r");
}
