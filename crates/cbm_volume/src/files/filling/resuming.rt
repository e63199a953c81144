// The writer of a file taken apart, and made again of its parts.

use crate::files::filling::FileWriter;
use cbm_chain::ChainWriter;

impl FileWriter {
    ghost use Rattle.std.specs.Prelude.{◌≡◌};

    /// The writer of its chain.
    pub fn chain(&self) -> &ChainWriter
        ensures { result.now ≡ self.now.chain }
    {
        &self.chain
    }

    /// The writer of the file in a slot, which may replace the one there, with this writer of its chain.
    pub fn resumed(slot: u8, replaces: bool, chain: ChainWriter) -> FileWriter
        ensures { result ≡ (record { slot = slot; replaces = replaces; chain = chain }) }
    {
        FileWriter {
            slot,
            replaces,
            chain,
        }
    }
}
