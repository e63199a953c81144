//! Statuses, as the drive's table has them.
use cbm_command::Refusal;
use cbm_machine::{Code, Status, Telling};

/// A status by its code and two numbers, and its line.
const STATUSES: [(Code, u8, u8, &[u8]); 24] = [
    (Code::PowerUp, 0, 0, b"73,CBM DOS V2.6 1541,00,00\r"),
    (Code::Fine, 0, 0, b"00, OK,00,00\r"),
    (Code::FilesScratched, 2, 0, b"01, FILES SCRATCHED,02,00\r"),
    (Code::FilesScratched, 144, 0, b"01, FILES SCRATCHED,99,00\r"),
    (Code::DataChecksum, 18, 0, b"23,READ ERROR,18,00\r"),
    (Code::WriteFailed, 17, 0, b"25,WRITE ERROR,17,00\r"),
    (Code::WriteProtected, 0, 0, b"26,WRITE PROTECT ON,00,00\r"),
    (Code::WrongId, 1, 20, b"29,DISK ID MISMATCH,01,20\r"),
    (Code::UnknownCommand, 0, 0, b"31,SYNTAX ERROR,00,00\r"),
    (Code::NoRecord, 0, 0, b"50,RECORD NOT PRESENT,00,00\r"),
    (Code::RecordOverflow, 0, 0, b"51,OVERFLOW IN RECORD,00,00\r"),
    (Code::FileTooLarge, 0, 0, b"52,FILE TOO LARGE,00,00\r"),
    (Code::WriteFileOpen, 0, 0, b"60,WRITE FILE OPEN,00,00\r"),
    (Code::FileNotOpen, 0, 0, b"61,FILE NOT OPEN,00,00\r"),
    (Code::FileNotFound, 0, 0, b"62,FILE NOT FOUND,00,00\r"),
    (Code::FileExists, 0, 0, b"63,FILE EXISTS,00,00\r"),
    (Code::WrongType, 0, 0, b"64,FILE TYPE MISMATCH,00,00\r"),
    (Code::NoBlock, 17, 4, b"65,NO BLOCK,17,04\r"),
    (
        Code::WrongLink,
        36,
        0,
        b"66,ILLEGAL TRACK OR SECTOR,36,00\r",
    ),
    (
        Code::WrongLink,
        255,
        100,
        b"66,ILLEGAL TRACK OR SECTOR,99,99\r",
    ),
    (Code::NoChannel, 0, 0, b"70,NO CHANNEL,00,00\r"),
    (Code::EndlessChain, 17, 0, b"71,DIR ERROR,17,00\r"),
    (Code::DiskFull, 0, 0, b"72,DISK FULL,00,00\r"),
    (Code::DriveNotReady, 0, 0, b"74,DRIVE NOT READY,00,00\r"),
];

fn is_line(code: Code, first: u8, second: u8, wanted: &[u8]) -> bool {
    let status = Status {
        code,
        first,
        second,
    };
    status.line().as_slice() == wanted
}

#[test]
fn tells_statuses(rt: HostRuntime) {
    for (code, first, second, wanted) in STATUSES {
        assert!(rt; is_line(code, first, second, wanted));
    }
}

fn is_numbered(refusal: Refusal, number: u8) -> bool {
    let code = Code::from(refusal);
    code.number() == number && Status::plain(code).first == 0
}

#[test]
fn numbers_refusals(rt: HostRuntime) {
    for (refusal, number) in [
        (Refusal::Syntax, 30),
        (Refusal::UnknownCommand, 31),
        (Refusal::LongText, 32),
        (Refusal::WildName, 33),
        (Refusal::NoName, 34),
        (Refusal::NoChannel, 70),
        (Refusal::DriveNotReady, 74),
    ] {
        assert!(rt; is_numbered(refusal, number));
    }
}

const LINES: [&[u8]; 3] = [
    b"73,CBM DOS V2.6 1541,00,00\r",
    b"00, OK,00,00\r",
    b"00, OK,00,00\r",
];

/// Whether that byte comes next, last of its line or not.
fn tells_byte(telling: &mut Telling, wanted: u8, is_last: bool) -> bool {
    let told = telling.peek();
    telling.taken();
    told == Some((wanted, is_last))
}

fn tells_line(telling: &mut Telling, wanted: &[u8]) -> bool {
    let mut same = true;
    let mut left = wanted.len();
    for byte in wanted {
        left = left.saturating_sub(1);
        same = tells_byte(telling, *byte, left == 0) && same;
    }
    same
}

#[test]
fn power_up_is_told_once(rt: HostRuntime) {
    let mut telling = Telling::new(Status::plain(Code::PowerUp));
    for wanted in LINES {
        assert!(rt; tells_line(&mut telling, wanted));
    }
}
