ghost use Rattle.std.specs.Prelude.{◌≡◌, ◌<◌};
ghost use Rattle.cbm_direct.specs.Memories.{byte_at, rom_text, reply_shown, reply_behind};

/// Where the text of status 73 begins in the drive's ROM, and where it has ended.
const TEXT: (u16, u16) = (0xE5B6, 0xE5C8);

/// What the ROM has there: the number and the text, whose first and last byte have bit 7 set.
fn rom_text() -> &'static [u8]
    ensures { result.now ≡ rom_text }
{
    b"s\xC3BM DOS V2.6 154\xB1"
}

/// The byte of an address, as programs ask for it to find out what drive it is; 0 where they don't.
fn byte_at(address: u16) -> u8
    ensures { result ≡ byte_at address }
{
    if TEXT.0 <= address && address < TEXT.1 {
        let place = usize::from(address - TEXT.0);
        return rom_text().get(place).copied().unwrap_or(0);
    }
    match address {
        0xFEA0 => 0x0D,
        0xFEA1 => 0xED,
        0xFF40 | 0xFF41 => 0xAA,
        _ => 0,
    }
}

/// What M-R asked for and wasn't sent yet: an address, and how many bytes from there on, at least one.
#[derive(Clone, Copy, Debug, PartialEq, Eq, Drop)]
pub struct Reply {
    /// Where the next byte is.
    pub address: u16,
    /// How many there are.
    pub left: u8,
}

impl Reply {
    /// The next byte, and whether it is the last.
    pub fn next(self) -> (u8, bool)
        ensures value { result ≡ reply_shown self }
        ensures byte { result.0 < 256 }
    {
        (byte_at(self.address), self.left <= 1)
    }

    /// What is left behind that byte.
    pub fn behind(self) -> Option<Reply>
        ensures { result ≡ reply_behind self }
    {
        if self.left <= 1 {
            return None;
        }
        Some(Reply {
            address: self.address.wrapping_add(1),
            left: self.left - 1,
        })
    }
}
