//! The bytes that a request still has to send.

ghost use Rattle.std.specs.Prelude.{◌≡◌, [], ◌∷◌, MatchOption};
ghost use Rattle.cbm_host.specs.Engines.{is_last_byte};
ghost use Rattle.cbm_host.specs.Left.{bytes_left};

/// Bytes that are still to be sent.
#[derive(Clone, Copy, Drop)]
pub(crate) enum Left<'a> {
    /// These.
    Bytes(&'a [u8]),
    /// Equal ones: how many, and which byte.
    Equal(u32, u8),
}

impl<'a> Left<'a> {
    /// Takes the next one. None if none is left.
    pub(crate) fn next(&mut self) -> Option<u8>
        ensures { MatchOption result ((bytes_left self.old ≡ []) × (bytes_left self.new ≡ []))
            (λ byte. bytes_left self.old ≡ byte ∷ bytes_left self.new) }
    {
        match *self {
            Left::Bytes(bytes) => {
                let (byte, rest) = bytes.split_first()?;
                *self = Left::Bytes(rest);
                Some(*byte)
            }
            Left::Equal(count, byte) => {
                *self = Left::Equal(count.checked_sub(1)?, byte);
                Some(byte)
            }
        }
    }

    /// Whether none is left.
    pub(crate) fn is_empty(self) -> bool
        ensures { result ≡ is_last_byte (bytes_left self.entry) }
    {
        match self {
            Left::Bytes(bytes) => bytes.is_empty(),
            Left::Equal(count, _) => count == 0,
        }
    }
}
