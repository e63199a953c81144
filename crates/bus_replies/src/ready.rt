//! The mark that ends what comes of a line.

ghost use Rattle.std.specs.Prelude.{◌≡◌};
ghost use Rattle.bus_replies.specs.Ready.{ready_text};

use arrayvec::ArrayVec;
use itoa::Buffer;

/// `ready MOMENT`, and after it when the next reaction is due, if one is, both in microseconds: a line of at most 48 bytes.
pub fn ready_text(moment: u64, due: Option<u64>) -> ArrayVec<u8, 48>
    ensures { result.items ≡ ready_text moment due }
{
    let mut text = ArrayVec::<u8, 48>::new();
    let mut buffer = Buffer::new();
    text.try_extend_from_slice(b"ready ").unwrap();
    text.try_extend_from_slice(buffer.format(moment).as_bytes())
        .unwrap();
    if let Some(due) = due {
        text.try_extend_from_slice(b" ").unwrap();
        text.try_extend_from_slice(buffer.format(due).as_bytes())
            .unwrap();
    }
    text.try_extend_from_slice(b"\n").unwrap();
    text
}
