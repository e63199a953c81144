// Files that are being written.

ghost use Rattle.std.specs.Prelude.{◌≡◌, OnOk, ◌≤◌, ◌==◌, length};
ghost use Rattle.cbm_medium.specs.Seen.{OnlyContent};
ghost use Rattle.cbm_chain.specs.Writing.{has_no_byte};
ghost use Rattle.cbm_volume.specs.Filled.{StoresByte, StoresLed, FinishesWriting, FinishesReplacing};
ghost use Rattle.cbm_volume.specs.Calls.{OnlyOfWriter, OfWriter};
ghost use Rattle.cbm_volume.specs.Led.{FinishesLed, ReplacesLed};

use crate::files::filling::FileWriter;
use crate::volume::Volume;
use cbm_bam::Release;
use cbm_chain::free_chain;
use cbm_directory::put_slot;
use cbm_medium::{Medium, Trouble};

impl<M: Medium> Volume<M> {
    /// Adds a byte to a file; false if it needs a block and none is free. An `Err` leaves the disk as
    /// it was, with at most one block less free, and the writer is of no use then. On a sound disk it says that the
    /// medium is protected (26), or failed by itself.
    pub fn store(&mut self, writer: &mut FileWriter, byte: u8) -> Result<bool, Trouble>
        requires { writer.old.chain.tracks ≤ (M.seen self.old).tracks }
        ensures call { StoresByte result (M.seen self.old) (M.seen self.new) writer.old writer.new byte }
        ensures led { StoresLed result (M.seen self.old) (M.seen self.new) writer.old.chain byte writer.new.chain }
        ensures writer { (writer.new.slot ≡ writer.old.slot) × (writer.new.replaces ≡ writer.old.replaces) ×
            (writer.new.chain.tracks ≡ writer.old.chain.tracks) }
        ensures only { OnlyContent writer.old.chain.tracks result (M.seen self.old) (M.seen self.new) }
    {
        // Each sector that reads has 256 bytes: so it is known when a block is full.
        let _tracks = self.medium.tracks();
        writer.chain.put(&mut self.medium, byte)
    }

    /// Whether a file that is being written has no byte yet.
    pub fn is_empty(&self, writer: &FileWriter) -> bool
        ensures value { OfWriter (M.seen self.now) writer.now (λ d uses ch bytes blocks. result ≡ (length bytes == 0)) }
        ensures holds { result ≡ has_no_byte writer.now.chain }
    {
        // Each sector that reads has 256 bytes: so there are 254 bytes where there are two blocks.
        let _tracks = self.medium.tracks();
        writer.chain.is_empty()
    }

    /// CLOSE of a new file or one that was appended to: its last block is written, then its entry is closed. An `Err`
    /// leaves the slot as it was or closed, and the writer's blocks to nobody. On a sound disk it says that the medium
    /// is protected (26), or failed by itself.
    pub fn finish(&mut self, writer: &FileWriter) -> Result<(), Trouble>
        requires { writer.now.chain.tracks ≤ (M.seen self.old).tracks }
        ensures call { FinishesWriting result (M.seen self.old) (M.seen self.new) writer.now }
        ensures led { OnOk result (FinishesLed (M.seen self.old) (M.seen self.new) writer.now) }
        ensures only { OnlyOfWriter writer.now result (M.seen self.old) (M.seen self.new) }
    {
        let geometry = self.geometry();
        let Some(entry) = self.slot(writer.slot)? else {
            return Ok(());
        };
        writer.chain.finish(&mut self.medium)?;
        let closed = entry.closed(writer.chain.first_block(), writer.chain.count());
        put_slot(&mut self.medium, geometry, writer.slot, &closed)
    }

    /// CLOSE of a replacement: its last block is written, then its entry is closed over the new chain, then the old
    /// file's blocks are given back. An `Err` leaves the slot with the old file or with the new one. On a sound disk it
    /// says that the medium is protected (26), or failed by itself.
    pub fn finish_replacement(&mut self, writer: &FileWriter) -> Result<(), Trouble>
        requires { writer.now.chain.tracks ≤ (M.seen self.old).tracks }
        ensures call { FinishesReplacing result (M.seen self.old) (M.seen self.new) writer.now }
        ensures led { OnOk result (ReplacesLed (M.seen self.old) (M.seen self.new) writer.now) }
        ensures only { OnlyOfWriter writer.now result (M.seen self.old) (M.seen self.new) }
    {
        let geometry = self.geometry();
        let Some(old) = self.slot(writer.slot)? else {
            return Ok(());
        };
        let mut release = Release::begin(&self.medium, geometry)?;
        free_chain(&self.medium, geometry, old.first_block(), &mut release)?;
        writer.chain.finish(&mut self.medium)?;
        let closed = old.closed(writer.chain.first_block(), writer.chain.count());
        put_slot(&mut self.medium, geometry, writer.slot, &closed)?;
        release.write(&mut self.medium, geometry)
    }
}
