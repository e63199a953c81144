//! What came of a request.

ghost use Rattle.std.specs.Prelude.{◌≡◌, ◌++◌, OnOk};
ghost use Rattle.cbm_host.specs.Performed.{taken_with, last_with};

use std::alloc::AllocError;

/// What came of a request.
#[derive(Debug, Drop)]
pub struct Done {
    /// The bytes that the drive said.
    pub bytes: Vec<u8>,
    /// Whether the last of them carried EOI; false if there is none.
    pub last: bool,
    /// When the request was over, in microseconds: all lines are free.
    pub end: u64,
}

impl Done {
    /// A byte that was taken, or none, with whether it carried EOI. Error: want of memory.
    pub(crate) fn take(&mut self, said: Option<(u8, bool)>) -> Result<(), AllocError>
        ensures bytes { OnOk result (self.new.bytes.items ≡ self.old.bytes.items ++ taken_with said) }
        ensures last { OnOk result (self.new.last ≡ last_with said self.old.last) }
    {
        let Some((byte, last)) = said else {
            return Ok(());
        };
        self.bytes.push(byte)?;
        self.last = last;
        Ok(())
    }
}
