//! Whether a file is a BASIC program.
ghost use Rattle.std.specs.Prelude.{◌≡◌, ◌≤◌, ◌<◌, ◌+◌, ◌&&◌, ◌==◌, ℕ, false, length, IfSome, MatchOption};
ghost use Rattle.cbm_basic.specs.Links.{is_end, links_hold, text_holds, is_program};

/// Where a C64 loads BASIC programs: $0801.
const ADDRESS: usize = 2049;

/// What follows the link and the number of a line.
const HEAD: usize = 4;

/// Where the line begins that follows a text at an address, and its bytes; None where no 0 ends the text.
fn next_place(at: usize, bytes: &[u8]) -> Option<(usize, &[u8])>
    requires { at + length bytes.now ≤ usize.MAX }
    ensures holds { (link : ℕ) → MatchOption result (text_holds at link bytes.now ≡ false)
        (λ p. text_holds at link bytes.now ≡ (link == p.0) && links_hold p.0 p.1.now) }
    ensures shorter { IfSome result (λ p. length p.1.now < length bytes.now) }
    ensures room { IfSome result (λ p. p.0 + length p.1.now ≤ at + length bytes.now) }
{
    let mut rest = bytes;
    let mut place = at;
    'codes: while let Some((code, afterwards)) = rest.split_first() {
        place += 1;
        if *code == 0 {
            return Some((place, afterwards));
        }
        rest = afterwards;
    }
    None
}

/// Whether the program ends here: the second byte of the link is 0.
pub fn is_end(bytes: &[u8]) -> bool
    ensures { result ≡ is_end bytes.now }
{
    matches!(bytes, [_, 0, ..])
}

/// Where the line begins to which the link of a line at an address leads, and its bytes; None where no line begins there.
#[tactic(auto, unfolding(crate::specs::Links::links_hold, crate::specs::Links::number_holds))]
fn linked_line(at: usize, bytes: &[u8]) -> Option<(usize, &[u8])>
    requires { at + length bytes.now ≤ usize.MAX }
    ensures holds { is_end bytes.now ≡ false → MatchOption result (links_hold at bytes.now ≡ false)
        (λ p. links_hold at bytes.now ≡ links_hold p.0 p.1.now) }
    ensures shorter { IfSome result (λ p. length p.1.now < length bytes.now) }
    ensures room { IfSome result (λ p. p.0 + length p.1.now ≤ at + length bytes.now) }
{
    let (low, rest) = bytes.split_first()?;
    let (high, rest) = rest.split_first()?;
    let (_, rest) = rest.split_first()?;
    let (_, rest) = rest.split_first()?;
    let (next, afterwards) = next_place(at + HEAD, rest)?;
    if next == *low as usize + 256 * *high as usize {
        Some((next, afterwards))
    } else {
        None
    }
}

/// Whether each link leads to the next line, up to the end.
fn links_hold(bytes: &[u8]) -> bool
    ensures { result ≡ links_hold 2049 bytes.now }
{
    let mut rest = bytes;
    let mut at = ADDRESS;
    'lines: while !is_end(rest) {
        let Some((next, afterwards)) = linked_line(at, rest) else {
            return false;
        };
        at = next;
        rest = afterwards;
    }
    true
}

/// Whether a file is a BASIC program of a C64: it is loaded at $0801, each link is the address of the next line, and the program ends.
pub fn is_program(file: &[u8]) -> bool
    ensures { result ≡ is_program file.now }
{
    match file {
        [low, high, lines @ ..] => *low == 1 && *high == 8 && links_hold(lines),
        _ => false,
    }
}
