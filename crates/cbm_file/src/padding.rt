ghost use Rattle.std.specs.Prelude.{◌≡◌, ◌≤◌, length};
ghost use Rattle.cbm_file.specs.Padding.{before_filler, padded};

/// The byte that a name in the directory is filled up with.
pub const FILLER: u8 = 0xA0;

/// A name without the bytes that fill it up: what stands before the first $A0 (Inside Commodore DOS).
pub fn before_filler(name: &[u8]) -> &[u8]
    ensures value { result.now ≡ before_filler name.now }
    ensures short { length result.now ≤ length name.now }
{
    for i in 0..name.len() {
        if name[i] == FILLER {
            return &name[..i];
        }
    }
    name
}

/// A name of at most sixteen bytes, filled up with $A0 to sixteen as an entry of the directory has it (Inside
/// Commodore DOS).
pub fn padded(name: &[u8]) -> [u8; 16]
    requires { length name.now ≤ 16 }
    ensures { result ≡ padded name.now }
{
    let mut padded = [FILLER; 16];
    padded[..name.len()].copy_from_slice(name);
    padded
}
