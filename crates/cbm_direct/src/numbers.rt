//! The numbers of a command.
ghost use Rattle.std.specs.Prelude.{◌≡◌, ◌≤◌, true};
ghost use Rattle.cbm_direct.specs.Asking.{is_gap, is_figure, without_gap, figures_spelled, without_figures, begins_with_number, first_number, behind_number};

/// What may stand before a number.
fn is_gap(byte: u8) -> bool
    ensures { result ≡ is_gap byte }
{
    byte == b' ' || byte == b',' || byte == 29
}

/// A digit.
fn is_figure(byte: u8) -> bool
    ensures { result ≡ is_figure byte }
{
    b'0' <= byte && byte <= b'9'
}

/// The text behind what may stand before a number.
fn without_gap(text: &[u8]) -> &[u8]
    ensures { result.now ≡ without_gap text.now }
{
    match text.split_first() {
        None => text,
        Some((first, rest)) => {
            if is_gap(*first) {
                without_gap(rest)
            } else {
                text
            }
        }
    }
}

/// The number that the first digits spell behind these; what is above 255 counts as 256.
fn figures_spelled(number: u32, text: &[u8]) -> u32
    requires { number ≤ 256 }
    ensures value { result ≡ figures_spelled number text.now }
    ensures bound { result ≤ 256 }
{
    match text.split_first() {
        None => number,
        Some((first, rest)) => {
            if is_figure(*first) {
                figures_spelled((10 * number + u32::from(*first - b'0')).min(256), rest)
            } else {
                number
            }
        }
    }
}

/// The text behind its first digits.
fn without_figures(text: &[u8]) -> &[u8]
    ensures { result.now ≡ without_figures text.now }
{
    match text.split_first() {
        None => text,
        Some((first, rest)) => {
            if is_figure(*first) {
                without_figures(rest)
            } else {
                text
            }
        }
    }
}

/// Whether a text begins with a number of at most 255.
fn begins_with_number(text: &[u8]) -> bool
    ensures { result ≡ begins_with_number text.now }
{
    match text.split_first() {
        None => false,
        Some((first, _)) => is_figure(*first) && figures_spelled(0, text) < 256,
    }
}

/// The first number of a text, from 0 to 255; None if it doesn't begin with one.
pub(crate) fn first_number(text: &[u8]) -> Option<u8>
    ensures { result ≡ first_number text.now }
{
    let text = without_gap(text);
    if begins_with_number(text) {
        return Some(figures_spelled(0, text) as u8);
    }
    None
}

/// The text behind its first number.
pub(crate) fn behind_number(text: &[u8]) -> &[u8]
    ensures { result.now ≡ behind_number text.now }
{
    without_figures(without_gap(text))
}
