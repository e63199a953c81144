//! Why a disk refused a command, in words.
use crate::break_off::Cause;
use cbm_channel::{Code, Status};
use cbm_shell::ShellFault;
use cbm_shell::texts::words;
use cbm_volume::{Trouble, Unsound};
use std::io;

/// What a refusal of the drive means, and what to do.
fn advice(code: Code) -> &'static str {
    match code {
        Code::FileNotFound => "no file on the disk has that name",
        Code::FileExists => "a file of that name already exists: use another name, or --replace",
        Code::WrongType => "a file of that name has another type",
        Code::DiskFull => "the disk is full",
        Code::NoName => "the name is missing",
        Code::WildName => "a new name can't contain `*` or `?`",
        Code::Syntax => "that name can't be used",
        Code::LongText => "the names are too long",
        Code::WriteProtected =>
            "it is locked, or it is an odd entry, which only `delete` can change",
        Code::WriteFileOpen => "the file was never closed: `validate` removes it",
        _ => "the drive refused it",
    }
}

/// Prints that a change would take a sector from an odd entry.
fn tell_protected(rt: &impl Eprint, name: &str, status: Status) -> io::Result<()> {
    let track = status.first;
    let sector = status.second;
    eprintln!(rt;
        "disk1541: {name}: not changed, because an odd entry points to track {track}, sector {sector}: delete that entry first; `disk1541 check --all {name}` names it (status 26)"
    )
}

/// Prints what the drive's status means.
fn tell_status(rt: &impl Eprint, name: &str, status: Status) -> io::Result<()> {
    if status.code == Code::WriteProtected && status.first != 0 {
        return tell_protected(rt, name, status);
    }
    let number = status.code.number();
    let text = advice(status.code);
    eprintln!(rt; "disk1541: {name}: {text} (status {number})")
}

/// Prints what is wrong with a disk that therefore isn't changed.
fn tell_unsound(rt: &impl Eprint, name: &str, unsound: Unsound) -> io::Result<()> {
    let track = unsound.track;
    let sector = unsound.sector;
    let what = std::str::from_utf8(words(unsound.number)).unwrap_or("it is not sound");
    eprintln!(rt;
        "disk1541: {name}: not changed, because the disk is not sound: track {track}, sector {sector}: {what}. `disk1541 check --all {name}` shows how to repair it"
    )
}

/// Prints why a chain breaks off.
fn tell_trouble(rt: &impl Eprint, name: &str, trouble: Trouble) -> io::Result<()> {
    let cause = Cause(trouble);
    eprintln!(rt; "disk1541: {name}: {cause}")
}

/// Prints why a file isn't extracted, and the way out.
pub fn tell_unread(rt: &impl Eprint, name: &str, trouble: Trouble) -> io::Result<()> {
    let cause = Cause(trouble);
    eprintln!(rt; "disk1541: {name}: {cause}. --salvage extracts the readable part")
}

/// What to do with a disk that can't be put in order: a file at fault goes, and where none is, another image of the same bytes.
fn way_out(trouble: Trouble) -> &'static str {
    match trouble.code {
        20..=29 =>
            "`disk1541 check --all` names the damaged files: `get --salvage` extracts the readable part of one, then `delete --force` removes it. If it names none, `errors --drop --lossy` drops the error bytes of a D64, and `convert --lossy` makes a D64 of a G64",
        _ =>
            "`disk1541 check --all` names the damaged files: `get --salvage` extracts the readable part of one, then `delete --force` removes it. If it names none, the directory is damaged: `get-all --salvage` extracts the files",
    }
}

/// Prints why a disk can't be put in order, and what to do.
pub fn tell_unmendable(rt: &impl Eprint, name: &str, trouble: Trouble) -> io::Result<()> {
    let cause = Cause(trouble);
    let way = way_out(trouble);
    eprintln!(rt; "disk1541: {name} can't be validated: {cause}. {way}")
}

/// What is wrong with a G64, by the number of its fault: a file that isn't known to be foreign is refused as a D64 never.
pub fn image_fault_text(number: u8) -> &'static str {
    match number {
        2 => "its version isn't 0",
        3 => "it must have 69 to 84 track entries",
        4 => "its greatest track size is above 7928 bytes",
        5 => "it is truncated, or a track lies outside the file",
        6 => "a track is empty, or longer than the greatest track size",
        8 => "two tracks share bytes",
        _ => "it is not a disk image",
    }
}

/// Prints what is wrong with a G64.
fn tell_image(rt: &impl Eprint, name: &str, number: u8) -> io::Result<()> {
    let text = image_fault_text(number);
    eprintln!(rt;
        "disk1541: {name} is a G64 that can't be used: {text} (fault {number} of its format)"
    )
}

/// Prints what a file is that is no image of a 1541's disk.
pub fn tell_foreign(rt: &impl Eprint, name: &str, words: &str, size: usize) -> io::Result<()> {
    eprintln!(rt; "disk1541: {name} is {words} ({size} bytes)")
}

/// Prints why a disk refused a command.
pub fn tell_refusal(rt: &impl Eprint, name: &str, fault: ShellFault) -> io::Result<()> {
    match fault {
        ShellFault::Image(number) => tell_image(rt, name, number),
        ShellFault::Unsound(unsound) => tell_unsound(rt, name, unsound),
        ShellFault::Refused(status) => tell_status(rt, name, status),
        ShellFault::Trouble(trouble) => tell_trouble(rt, name, trouble),
        ShellFault::NotClosed => {
            eprintln!(rt;
                "disk1541: {name}: the file was never closed. `get --salvage` extracts the readable part"
            )
        }
        _ => eprintln!(rt; "disk1541: {name}: {fault}"),
    }
}
