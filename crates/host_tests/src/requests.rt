// Requests over the wires: what the drive says, whatever its reaction, and when a request is over.

ghost use Rattle.std.specs.Prelude.{◌≤◌};
ghost use Rattle.cbm_host.specs.Engines.{channel_of};

use crate::wired::{Wired, empty_disk};
use cbm_drive::{Channels, Pace, Unwatched};
use cbm_host::{Hosted, Request};
use std::alloc::Global;
use std::process::Abort;
use std::test::Fail;

/// The status if all is well.
const OK: &[u8] = b"00, OK,00,00\r";

/// The program HELLO.
const HELLO: &[u8] = b"\x01\x02\x03";

// Asserts that a request is answered by these bytes, the last of them with EOI or not.
fn answers(
    rt: &impl Abort,
    alloc: Global,
    wired: &mut Wired,
    request: Request,
    bytes: &[u8],
    last: bool,
) -> Result<(), Fail>
    requires { channel_of request ≤ 15 }
{
    let done = wired.asks(rt, alloc, request)?;
    assert!(rt; done.bytes.as_slice() == bytes);
    assert!(rt; done.last == last);
    Ok(())
}

// A drive that reacts soon frees CLOCK after its last byte before ATN is pulled; a slower one is cut there.
#[test]
fn a_program_is_written_and_read(rt: HostRuntime) -> Result<(), Fail> {
    for (pace, reaction) in [
        (Pace::Profile, 1),
        (Pace::Profile, 19),
        (Pace::Profile, 20),
        (Pace::Profile, 21),
        (Pace::Profile, 60),
        (Pace::Kernal, 1),
        (Pace::Kernal, 19),
        (Pace::Kernal, 20),
        (Pace::Kernal, 60),
    ] {
        let mut wired = Wired::at(&rt, rt.alloc(), pace, reaction)?;
        answers(
            &rt,
            rt.alloc(),
            &mut wired,
            Request::Open(1, b"HELLO"),
            &[],
            false,
        )?;
        answers(
            &rt,
            rt.alloc(),
            &mut wired,
            Request::Put(1, HELLO),
            &[],
            false,
        )?;
        answers(&rt, rt.alloc(), &mut wired, Request::Close(1), &[], false)?;
        answers(&rt, rt.alloc(), &mut wired, Request::Status, OK, true)?;
        answers(
            &rt,
            rt.alloc(),
            &mut wired,
            Request::Open(0, b"HELLO"),
            &[],
            false,
        )?;
        answers(
            &rt,
            rt.alloc(),
            &mut wired,
            Request::Get(0, 100),
            HELLO,
            true,
        )?;
        answers(&rt, rt.alloc(), &mut wired, Request::Status, OK, true)?;
    }
    Ok(())
}

// Equal bytes that take no memory end at the same moment as if they had been put.
#[test]
fn a_fill_ends_as_a_put(rt: HostRuntime) -> Result<(), Fail> {
    let mut bytes = Vec::new(rt.alloc());
    for _ in 0..600u16 {
        bytes.push(0x41)?;
    }
    let mut filled = Wired::new(&rt, rt.alloc(), 20)?;
    filled.asks(&rt, rt.alloc(), Request::Open(2, b"DATA,S,W"))?;
    filled.asks(&rt, rt.alloc(), Request::Fill(2, 600, 0x41))?;
    let fill_end = filled.asks(&rt, rt.alloc(), Request::Close(2))?.end;
    let mut put = Wired::new(&rt, rt.alloc(), 20)?;
    put.asks(&rt, rt.alloc(), Request::Open(2, b"DATA,S,W"))?;
    put.asks(&rt, rt.alloc(), Request::Put(2, bytes.as_slice()))?;
    let put_end = put.asks(&rt, rt.alloc(), Request::Close(2))?.end;
    assert!(&rt; fill_end == put_end);
    Ok(())
}

// Byte by byte, as a script takes them, the same bytes come as event by event, and the request is over at the same moment.
#[test]
fn bytes_are_taken_one_by_one(rt: HostRuntime) -> Result<(), Fail> {
    let mut bytes = Vec::new(rt.alloc());
    for byte in 0..600u16 {
        bytes.push((byte % 251) as u8)?;
    }
    let mut wired = Wired::new(&rt, rt.alloc(), 20)?;
    wired.asks(&rt, rt.alloc(), Request::Open(2, b"DATA,S,W"))?;
    wired.asks(&rt, rt.alloc(), Request::Put(2, bytes.as_slice()))?;
    wired.asks(&rt, rt.alloc(), Request::Close(2))?;
    wired.asks(&rt, rt.alloc(), Request::Open(2, b"DATA,S,R"))?;
    let done = wired.asks(&rt, rt.alloc(), Request::Get(2, 1000))?;
    let mut hosted = Hosted::new(empty_disk(rt.alloc())?, Channels::new(rt.alloc())?, 8);
    hosted.carry_out(Request::Open(2, b"DATA,S,W"), &mut Unwatched);
    hosted.carry_out(Request::Put(2, bytes.as_slice()), &mut Unwatched);
    hosted.carry_out(Request::Close(2), &mut Unwatched);
    hosted.carry_out(Request::Open(2, b"DATA,S,R"), &mut Unwatched);
    let mut performer = hosted.ask(Request::Get(2, 1000));
    let mut taken = Vec::new(rt.alloc());
    let mut marked = false;
    for _ in 0..1000u16 {
        if let Some((byte, last)) = hosted.take(&mut performer, &mut Unwatched) {
            taken.push(byte)?;
            marked = last;
        }
    }
    assert!(rt; taken.as_slice() == bytes.as_slice() && marked);
    assert!(rt; taken.as_slice() == done.bytes.as_slice());
    assert!(rt; performer.over() == done.end);
    Ok(())
}

// A missing file is asked for all the same, as a KERNAL does: at its pace the status stays that of the OPEN.
#[test]
fn the_status_of_a_missing_file_stays(rt: HostRuntime) -> Result<(), Fail> {
    for (pace, status) in [
        (Pace::Kernal, b"62,FILE NOT FOUND,00,00\r".as_slice()),
        (Pace::Profile, b"61,FILE NOT OPEN,00,00\r".as_slice()),
    ] {
        let mut wired = Wired::at(&rt, rt.alloc(), pace, 20)?;
        answers(
            &rt,
            rt.alloc(),
            &mut wired,
            Request::Open(0, b"NONE"),
            &[],
            false,
        )?;
        answers(&rt, rt.alloc(), &mut wired, Request::Get(0, 9), &[], false)?;
        answers(&rt, rt.alloc(), &mut wired, Request::Status, status, true)?;
    }
    Ok(())
}

// A file is sent though its OPEN was refused, as SAVE does: at a KERNAL's pace the status stays that of the OPEN. What is sent is
// dropped at either pace.
#[test]
fn the_status_of_a_refused_save_stays(rt: HostRuntime) -> Result<(), Fail> {
    for (pace, status) in [
        (Pace::Kernal, b"63,FILE EXISTS,00,00\r".as_slice()),
        (Pace::Profile, b"61,FILE NOT OPEN,00,00\r".as_slice()),
    ] {
        let mut wired = Wired::at(&rt, rt.alloc(), pace, 20)?;
        for bytes in [b"OLD".as_slice(), b"NEWER".as_slice()] {
            wired.asks(&rt, rt.alloc(), Request::Open(1, b"A,P,W"))?;
            wired.asks(&rt, rt.alloc(), Request::Put(1, bytes))?;
            wired.asks(&rt, rt.alloc(), Request::Close(1))?;
        }
        answers(&rt, rt.alloc(), &mut wired, Request::Status, status, true)?;
        wired.asks(&rt, rt.alloc(), Request::Open(0, b"A"))?;
        answers(
            &rt,
            rt.alloc(),
            &mut wired,
            Request::Get(0, 9),
            b"OLD",
            true,
        )?;
    }
    Ok(())
}
