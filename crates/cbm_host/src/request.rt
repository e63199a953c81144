//! What a host asks of a drive.
ghost use Rattle.std.specs.Prelude.{replicate};
ghost use Rattle.cbm_host.specs.CarriedOut.{AreBytes};

use crate::left::Left;

/// The bytes that are taken of a status at most: its line is far shorter, but whatever the drive says, the request ends.
const MOST_BYTES: u32 = 200_000;

/// A request, on a channel from 0 to 15.
#[derive(Clone, Copy, Drop)]
pub enum Request<'a> {
    /// OPEN with this text, or on 15 a command: LISTEN, $F0 + channel, the text, UNLISTEN.
    Open(u8, &'a [u8]),
    /// These bytes for the channel: LISTEN, $60 + channel, the bytes, UNLISTEN.
    Put(u8, &'a [u8]),
    /// Equal bytes for the channel, how many and which, sent as `Put` sends them; they take no memory.
    Fill(u8, u32, u8),
    /// At most this many bytes of the channel, up to the one with EOI: TALK, $60 + channel, the bytes, UNTALK.
    Get(u8, u32),
    /// CLOSE: LISTEN, $E0 + channel, UNLISTEN.
    Close(u8),
    /// The status line: channel 15 to its end, 200,000 bytes at most.
    Status,
}

/// The items of a slice of bytes are bytes.
fn are_bytes(items: &[u8])
    ensures { AreBytes items.now }
{}

/// So are equal ones.
fn are_equal(count: u32, byte: u8)
    ensures { AreBytes (replicate count byte) }
{}

impl<'a> Request<'a> {
    ghost use Rattle.std.specs.Prelude.{◌≡◌};
    ghost use Rattle.cbm_host.specs.Engines.{sent_by, most_of};
    ghost use Rattle.cbm_host.specs.Left.{bytes_left};

    /// The bytes that are sent to the channel.
    pub(crate) fn sends(self) -> Left<'a>
        ensures { bytes_left result ≡ sent_by self.entry }
    {
        match self {
            Request::Open(_, bytes) | Request::Put(_, bytes) => Left::Bytes(bytes),
            Request::Fill(_, count, byte) => Left::Equal(count, byte),
            Request::Get(..) | Request::Close(_) | Request::Status => Left::Bytes(&[]),
        }
    }

    /// What it sends are bytes. It does nothing, and is called for what it promises.
    pub(crate) fn sends_bytes(self)
        ensures { AreBytes (sent_by self.entry) }
    {
        match self {
            Request::Open(_, bytes) | Request::Put(_, bytes) => are_bytes(bytes),
            Request::Fill(_, count, byte) => are_equal(count, byte),
            Request::Get(..) | Request::Close(_) | Request::Status => {}
        }
    }

    /// The most bytes that are taken from it.
    pub(crate) fn most(self) -> u32
        ensures { result ≡ most_of self.entry }
    {
        match self {
            Request::Get(_, most) => most,
            Request::Status => MOST_BYTES,
            Request::Open(..) | Request::Put(..) | Request::Fill(..) | Request::Close(_) => 0,
        }
    }
}
