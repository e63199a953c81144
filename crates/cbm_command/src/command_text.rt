//! Reading the text of a command.

ghost use Rattle.std.specs.Prelude.{◌≡◌, ◌+◌, ◌≤◌, IfOk, length};
ghost use Rattle.std.specs.Result.{result_map_both};
ghost use Rattle.cbm_command.specs.Texts.{comma, parts_at};
ghost use Rattle.cbm_command.specs.Commands.{later_name, later_names, names_in, names_and, after_the_head, new_asked, scratch_asked, rename_asked, copy_asked, position_asked, by_letter, command_of};

use crate::command::Command;
use crate::head::command_head;
use crate::name::Name;
use crate::names::Names;
use crate::open_text::LONGEST;
use crate::refusal::Refusal;
use crate::text::{after_the_first, before_first, contains, first_or_zero, is_digit};

/// A name after the first: the drive's digit and a colon before it are skipped.
fn later_name(text: &[u8]) -> Result<Name, Refusal>
    ensures { result ≡ later_name text.now }
{
    let Some((digit, rest)) = text.split_first() else {
        return Ok(Name::of(text));
    };
    let Some((separator, name)) = rest.split_first() else {
        return Ok(Name::of(text));
    };
    if !is_digit(*digit) || *separator != b':' {
        return Ok(Name::of(text));
    }
    if *digit == b'0' {
        Ok(Name::of(name))
    } else {
        Err(Refusal::DriveNotReady)
    }
}

/// These names, and the later ones of a text.
#[tactic(auto, using(crate::proofs::Lists::names_refused, crate::proofs::Lists::names_more, crate::proofs::Lists::names_end))]
fn more_names(mut names: Names, text: &[u8]) -> Result<Names, Refusal>
    requires { length names + length text.now ≤ 57 }
    ensures { result ≡ names_and names (later_names (parts_at comma text.now)) }
{
    names.push(later_name(before_first(b',', text))?);
    if contains(b',', text) {
        more_names(names, after_the_first(b',', text))
    } else {
        Ok(names)
    }
}

#[tactic(auto, using(crate::proofs::Lists::first_more, crate::proofs::Lists::first_end))]
fn names_in(text: &[u8]) -> Result<Names, Refusal>
    requires { length text.now ≤ 57 }
    ensures { result ≡ names_in (parts_at comma text.now) }
{
    let mut names = Names::new();
    names.push(Name::of(before_first(b',', text)));
    if contains(b',', text) {
        more_names(names, after_the_first(b',', text))
    } else {
        Ok(names)
    }
}

fn new_asked(text: &[u8]) -> Result<Command, Refusal>
    ensures { result ≡ new_asked text.now }
{
    let name = Name::of(before_first(b',', text));
    if name.is_empty() {
        return Err(Refusal::NoName);
    }
    if name.is_wild() {
        return Err(Refusal::WildName);
    }
    if !contains(b',', text) {
        return Ok(Command::New(name, None));
    }
    match after_the_first(b',', text) {
        [first, second, ..] => Ok(Command::New(name, Some([*first, *second]))),
        _ => Err(Refusal::Syntax),
    }
}

fn scratch_asked(text: &[u8]) -> Result<Command, Refusal>
    requires { length text.now ≤ 57 }
    ensures { result ≡ scratch_asked text.now }
{
    let patterns = names_in(text)?;
    if patterns.has_empty() {
        return Err(Refusal::NoName);
    }
    Ok(Command::Scratch(patterns))
}

fn rename_asked(text: &[u8]) -> Result<Command, Refusal>
    ensures { result ≡ rename_asked text.now }
{
    let new = Name::of(before_first(b'=', text));
    let old = later_name(after_the_first(b'=', text))?;
    if !contains(b'=', text) || new.is_empty() || old.is_empty() {
        return Err(Refusal::NoName);
    }
    if new.is_wild() || old.is_wild() {
        return Err(Refusal::WildName);
    }
    Ok(Command::Rename(new, old))
}

fn copy_asked(text: &[u8]) -> Result<Command, Refusal>
    requires { length text.now ≤ 57 }
    ensures { result ≡ copy_asked text.now }
{
    let new = Name::of(before_first(b'=', text));
    let sources = more_names(Names::new(), after_the_first(b'=', text))?;
    if !contains(b'=', text) || new.is_empty() || sources.has_empty() {
        return Err(Refusal::NoName);
    }
    if new.is_wild() || sources.has_wild() {
        return Err(Refusal::WildName);
    }
    if sources.as_slice().len() > 4 {
        return Err(Refusal::Syntax);
    }
    Ok(Command::Copy(new, sources))
}

/// P's four bytes or more: a channel, a record's number low byte first, and perhaps a position.
fn position_asked(text: &[u8]) -> Result<Command, Refusal>
    ensures { result ≡ position_asked text.now }
{
    let [channel, low, high, rest @ ..] = text else {
        return Err(Refusal::Syntax);
    };
    let record = u16::from(*low) + 256 * u16::from(*high);
    Ok(Command::Position(*channel % 16, record.max(1), first_or_zero(rest).max(1)))
}

/// What follows the colon of a correct head.
fn after_the_head(text: &[u8]) -> Result<&[u8], Refusal>
    ensures value { result_map_both (λ rest. rest.now) (λ refusal. refusal) result ≡ after_the_head text.now }
    ensures short { IfOk result (λ rest. length rest.now ≤ length text.now) }
{
    if !contains(b':', text) {
        return Err(Refusal::NoName);
    }
    command_head(before_first(b':', text))?;
    Ok(after_the_first(b':', text))
}

fn by_letter(letter: u8, text: &[u8]) -> Result<Command, Refusal>
    requires { length text.now ≤ 57 }
    ensures { result ≡ by_letter letter text.now }
{
    match letter {
        b'N' => new_asked(after_the_head(text)?),
        b'S' => scratch_asked(after_the_head(text)?),
        b'R' => rename_asked(after_the_head(text)?),
        b'C' => copy_asked(after_the_head(text)?),
        b'V' => {
            command_head(before_first(b':', text))?;
            Ok(Command::Validate)
        }
        b'I' => {
            command_head(before_first(b':', text))?;
            Ok(Command::Initialize)
        }
        b'P' => position_asked(text),
        _ => Err(Refusal::UnknownCommand),
    }
}

/// What the text of a command asks for, without the return at its end. The refusals come in this order: the length
/// of 58 bytes, the first byte, the colon, the head, other drives' digits, and then each command's own
/// (the Commodore 1541 User's Guide; the order is this project's).
pub fn parse_command(text: &[u8]) -> Result<Command, Refusal>
    ensures { result ≡ command_of text.now }
{
    if text.len() > LONGEST {
        return Err(Refusal::LongText);
    }
    match text.split_first() {
        None => Err(Refusal::UnknownCommand),
        Some((letter, rest)) => by_letter(*letter, rest),
    }
}
