ghost use Rattle.std.specs.Prelude.{◌≡◌};
ghost use Rattle.cbm_direct.specs.Asking.{buffer_wanted};

/// Which buffer an OPEN with `#` wants.
#[derive(Clone, Copy, Debug, PartialEq, Eq, Drop)]
pub enum Wanted {
    /// `#`: one that is free.
    Any,
    /// `#` and a digit: the one of this number.
    Number(u8),
    /// `#` and anything else.
    Unread,
}

/// Which buffer the text of an OPEN wants; None if it doesn't begin with `#`.
pub fn wanted_by(text: &[u8]) -> Option<Wanted>
    ensures { result ≡ buffer_wanted text.now }
{
    match text {
        [b'#'] => Some(Wanted::Any),
        [b'#', digit] if *digit >= b'0' && *digit <= b'9' => Some(Wanted::Number(*digit - b'0')),
        [b'#', ..] => Some(Wanted::Unread),
        _ => None,
    }
}
