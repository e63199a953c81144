ghost use Rattle.std.specs.Prelude.{◌≡◌};
ghost use Rattle.cbm_channel.specs.Sought.{is_sought};

use cbm_command::{Name, matches};
use cbm_file::FileType;
use cbm_volume::{Entry, Wanted};

/// A file that is looked for by a pattern, and by its type if one is meant.
#[derive(Drop)]
pub(crate) struct Sought<'a> {
    pub(crate) pattern: &'a Name,
    pub(crate) kind: Option<FileType>,
}

impl Wanted for Sought<'_> {
    ghost use Rattle.std.specs.Prelude.{◌≡◌};
    ghost use Rattle.cbm_channel.specs.Sought.{is_sought};

    ghost wants = { λ s. is_sought s.pattern.now s.kind };

    fn wants(&self, entry: &Entry) -> bool {
        !entry.is_empty()
            && matches(self.pattern.bytes(), entry.name())
            && (self.kind.is_none() || self.kind == entry.kind())
    }
}
