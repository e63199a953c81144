ghost use Rattle.std.specs.Prelude.{◌≡◌};
ghost use Rattle.cbm_command.specs.Names.{is_match};

/// Whether a pattern matches a name: `*` matches the rest and ends the pattern, `?` matches one byte that is there,
/// any other byte itself (the Commodore 1541 User's Guide).
pub fn matches(pattern: &[u8], name: &[u8]) -> bool
    ensures { result ≡ is_match pattern.now name.now }
{
    match (pattern.split_first(), name.split_first()) {
        (None, None) => true,
        (None, Some(_)) => false,
        (Some((wanted, _)), None) => *wanted == b'*',
        (Some((wanted, pattern)), Some((byte, name))) => {
            *wanted == b'*' || ((*wanted == b'?' || wanted == byte) && matches(pattern, name))
        }
    }
}
