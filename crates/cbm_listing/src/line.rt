//! Lines of 32 bytes.

ghost use Rattle.std.specs.Prelude.{◌≡◌, ◌+◌, ◌≤◌, ◌<◌, ◌^◌, ◌∷◌, ◌++◌, length, map, replicate};
ghost use Rattle.arrayvec.specs.ArrayVec.{array_vec_len};
ghost use Rattle.cbm_listing.specs.Lines.{space, low_first, shown_byte, closed_mark, locked_mark, kind_text, title_line, indent_width, entry_line, last_line};

use crate::entry::Entry;
use arrayvec::ArrayVec;
use cbm_file::{FileType, before_filler};

/// What fills a title and a name on the disk.
const FILLER: u8 = 0xa0;

/// A line, or the part of it that is there.
pub(crate) type Line = ArrayVec<u8, 32>;

fn add(line: &mut Line, bytes: &[u8])
    requires { array_vec_len line.old + length bytes.now ≤ 32 }
    ensures items { line.new.items ≡ line.old.items ++ bytes.now }
    ensures len { array_vec_len line.new ≡ array_vec_len line.old + length bytes.now }
{
    line.try_extend_from_slice(bytes).unwrap()
}

fn add_spaces(line: &mut Line, count: usize)
    requires { array_vec_len line.old + count ≤ 32 }
    ensures items { line.new.items ≡ line.old.items ++ replicate count space }
    ensures len { array_vec_len line.new ≡ array_vec_len line.old + count }
{
    for _i in 0..count {
        line.push(b' ');
    }
}

/// A byte of the header as it is shown: $A0 as a space.
fn shown_byte(byte: u8) -> u8
    ensures { result ≡ shown_byte byte }
{
    if byte == FILLER { b' ' } else { byte }
}

fn add_shown(line: &mut Line, bytes: &[u8])
    requires { array_vec_len line.old + length bytes.now ≤ 32 }
    ensures items { line.new.items ≡ line.old.items ++ map shown_byte bytes.now }
    ensures len { array_vec_len line.new ≡ array_vec_len line.old + length bytes.now }
{
    for byte in bytes {
        line.push(shown_byte(*byte));
    }
}

fn add_number(line: &mut Line, number: u16)
    requires { array_vec_len line.old + 4 ≤ 32 }
    ensures items { line.new.items ≡ line.old.items ++ 1 ∷ 1 ∷ low_first number }
    ensures len { array_vec_len line.new ≡ array_vec_len line.old + 4 }
{
    add(line, &[1, 1, (number % 256) as u8, (number / 256) as u8]);
}

/// The load address and the first line: the title in quotes in reverse letters, and the id and version.
pub(crate) fn title_line(title: &[u8; 16], mark: &[u8; 5]) -> Line
    ensures value { result.items ≡ title_line title.now mark.now }
    ensures full { array_vec_len result ≡ 32 }
{
    let mut line = Line::new();
    add(&mut line, &[1, 4]);
    add_number(&mut line, 0);
    add(&mut line, &[18, b'"']);
    add_shown(&mut line, title);
    add(&mut line, b"\" ");
    add_shown(&mut line, mark);
    add(&mut line, &[0]);
    line
}

/// The spaces between a number and a name.
fn indent_width(number: u16) -> usize
    ensures { result ≡ indent_width number }
{
    if number < 10 {
        3
    } else if number < 100 {
        2
    } else {
        1
    }
}

fn closed_mark(closed: bool) -> u8
    ensures { result ≡ closed_mark closed }
{
    if closed { b' ' } else { b'*' }
}

fn locked_mark(locked: bool) -> u8
    ensures { result ≡ locked_mark locked }
{
    if locked { b'<' } else { b' ' }
}

fn kind_text(kind: Option<FileType>) -> &'static [u8; 3]
    ensures { result.now ≡ kind_text kind }
{
    match kind {
        None => b"???",
        Some(kind) => kind.text(),
    }
}

/// The line of a slot that isn't empty.
pub(crate) fn entry_line(entry: &Entry<'_>) -> Line
    requires { length entry.now.name.now ≤ 16 }
    ensures value { result.items ≡
        entry_line entry.now.blocks entry.now.name.now entry.now.kind entry.now.closed entry.now.locked }
    ensures full { array_vec_len result ≡ 32 }
{
    let width = indent_width(entry.blocks);
    let name = before_filler(entry.name);
    let mut line = Line::new();
    add_number(&mut line, entry.blocks);
    add_spaces(&mut line, width);
    add(&mut line, b"\"");
    add(&mut line, name);
    add(&mut line, b"\"");
    add_spaces(&mut line, 16 - name.len());
    add(&mut line, &[closed_mark(entry.closed)]);
    add(&mut line, kind_text(entry.kind));
    add(&mut line, &[locked_mark(entry.locked)]);
    add_spaces(&mut line, 4 - width);
    add(&mut line, &[0]);
    line
}

/// The count of free blocks, and the end.
pub(crate) fn last_line(free: u16) -> Line
    ensures value { result.items ≡ last_line free }
    ensures full { array_vec_len result ≡ 32 }
{
    let mut line = Line::new();
    add_number(&mut line, free);
    add(&mut line, b"BLOCKS FREE.");
    add_spaces(&mut line, 13);
    add(&mut line, &[0, 0, 0]);
    line
}
