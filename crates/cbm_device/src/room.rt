//! Bytes for the caller's room.
ghost use Rattle.std.specs.Prelude.{◌≡◌, Err, length, MatchResult};
ghost use Rattle.cbm_device.specs.Answers.{answer, AreGiven};

use crate::refusal::DeviceRefusal;

/// Bytes go to the caller's room, and how many they are is reported. The one error is `NoRoom`, and then nothing goes there.
pub fn give(bytes: &[u8], out: &mut [u8], needed: &mut usize) -> Result<(), DeviceRefusal>
    ensures needed { needed.new ≡ length bytes.now }
    ensures given { AreGiven (answer result) out.old out.new bytes.now }
{
    *needed = bytes.len();
    if out.len() < bytes.len() {
        return Err(DeviceRefusal::NoRoom);
    }
    out[..bytes.len()].copy_from_slice(bytes);
    Ok(())
}

/// What was made goes to the caller's room. Errors: `NoRoom`, and if nothing was made why not.
pub fn given(
    made: Result<Vec<u8>, DeviceRefusal>,
    out: &mut [u8],
    needed: &mut usize,
) -> Result<(), DeviceRefusal>
    ensures { MatchResult made
        (λ v. (needed.new ≡ length v.items) × AreGiven (answer result) out.old out.new v.items)
        (λ why. (result ≡ Err why) × (out.new ≡ out.old) × (needed.new ≡ needed.old)) }
{
    match made {
        Ok(bytes) => give(bytes.as_slice(), out, needed),
        Err(refusal) => Err(refusal),
    }
}
