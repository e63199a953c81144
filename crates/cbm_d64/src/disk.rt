ghost use Rattle.std.specs.Prelude.{refl, ◌≡◌, ◌≢◌, ◌≤◌, ◌↔◌, length, IfOk, IfErr, OnOk, OnErr, IfSome};
ghost use Rattle.cbm_d64.specs.Image.{IsImageSize, IsSectorStored, IsErased, d64_content, d64_tracks, d64_seen, index_of};
ghost use Rattle.cbm_medium.specs.Place.{directory_head};
ghost use Rattle.cbm_medium.specs.Content.{written, blank, refusal, format_refusal};
ghost use Rattle.cbm_medium.specs.Seen.{with_content, formatted_as, write_refusal, IsRefused};

use crate::fault::D64Fault;
use crate::image::{code_at, erase, index, is_size, sector, store, tracks_in};
use cbm_medium::codes::WRITE_PROTECT_ON;
use cbm_medium::{Address, Fault, Medium, Steady, is_of_header};
use std::alloc::Global;
use std::marker::Model;

/// A disk in memory, as a D64 image: the bytes of its file, of 35 tracks, of 35 with error bytes, or of 40.
#[derive(Drop)]
pub struct D64Disk {
    bytes: Vec<u8>,
    protected: bool,
}

impl Model for D64Disk {
    ghost use Rattle.std.specs.Prelude.{length};
    ghost use Rattle.cbm_d64.specs.Image.{Image, IsImageSize};

    ghost Value = { Image };

    ghost view = { λ d. record { bytes = d.bytes.items; protected = d.protected } };

    ghost invariant = { λ d. IsImageSize (length d.bytes.items) };
}

impl D64Disk {
    /// The disk that an image is. Takes memory for a copy of the bytes; the size is tested before.
    pub fn from_bytes(alloc: Global, bytes: &[u8], protected: bool) -> Result<D64Disk, D64Fault>
        ensures ok { IfOk result (λ d. d ≡ (record { bytes = bytes.now; protected = protected })) }
        ensures size { (result ≢ Err D64Fault.Size) → IsImageSize (length bytes.now) }
        ensures err { (result ≡ Err D64Fault.Size) ↔ (¬ (IsImageSize (length bytes.now))) }
    {
        if !is_size(bytes.len()) {
            return Err(D64Fault::Size);
        }
        let bytes = Vec::from_slice(alloc, bytes).map_err(|_| D64Fault::Memory)?;
        Ok(D64Disk { bytes, protected })
    }

    /// The image of the disk, byte for byte that of its file if nobody wrote. Takes memory for it.
    pub fn to_bytes(&self, alloc: Global) -> Result<Vec<u8>, D64Fault>
        ensures ok { IfOk result (λ v. v.items ≡ self.now.bytes) }
        // It has the size of an image, so that it opens again.
        ensures size { IfOk result (λ v. IsImageSize (length v.items)) }
        ensures err { IfErr result (λ e. e ≡ D64Fault.Memory) }
    {
        Vec::from_slice(alloc, self.bytes.as_slice()).map_err(|_| D64Fault::Memory)
    }

    /// The code that refuses a write.
    #[tactic(auto, using(crate::proofs::Sectors::content_on_disk, crate::proofs::Sectors::index_in))]
    fn refusal(&self, at: Address) -> Option<u8>
        requires { at.track ≤ d64_tracks (length self.now.bytes) }
        ensures { result ≡ refusal self.now.protected (d64_content self.now.bytes at) }
    {
        if self.protected {
            return Some(WRITE_PROTECT_ON);
        }
        code_at(self.bytes.as_slice(), index(at)).filter(|code| is_of_header(*code))
    }
}

impl Medium for D64Disk {
    ghost use Rattle.cbm_d64.specs.Image.{d64_seen};
    ghost use Rattle.cbm_d64.specs.Outer.{d64_outer_good};
    ghost use Rattle.cbm_d64.specs.Faults.{d64_has_codes};

    ghost seen = { d64_seen };

    ghost codes = { λ d p. d64_has_codes d.bytes p };

    ghost outer_headers = { λ d p. d64_outer_good d.bytes p };

    #[tactic(auto, using(crate::proofs::Sectors::content_on_disk, crate::proofs::Sectors::index_in))]
    fn read(&self, at: Address) -> Result<[u8; 256], Fault> {
        let place = index(at);
        if let Some(code) = code_at(self.bytes.as_slice(), place) {
            return Err(Fault { code, at });
        }
        Ok(sector(self.bytes.as_slice(), place))
    }

    #[tactic(auto, using(crate::proofs::Sectors::index_in))]
    fn write(&mut self, at: Address, bytes: &[u8; 256]) -> Result<(), Fault>
        requires { at.track ≤ d64_tracks (length self.old.bytes) }
        ensures ok { let old = d64_seen self.old in
            OnOk result (d64_seen self.new ≡ with_content (written old.content at bytes.now) old) }
        ensures refused { IfSome (refusal self.old.protected (d64_content self.old.bytes at))
            (λ code. result ≡ Err (record { code = code; at = at })) }
        ensures err { IfErr result (λ fault. (fault.at ≡ at)
            × IsRefused (write_refusal (d64_seen self.old) at) fault (d64_seen self.old) (d64_seen self.new)) }

        // What the image holds then, its error bytes too, which the content doesn't show.
        ensures stored { OnOk result (IsSectorStored self.old.bytes self.new.bytes (index_of at) bytes.now) }
        ensures unchanged { OnErr result (self.new ≡ self.old) }
    {
        if let Some(code) = self.refusal(at) {
            return Err(Fault { code, at });
        }
        store(self.bytes.as_mut_slice(), index(at), bytes);
        Ok(())
    }

    fn format(&mut self, id: [u8; 2]) -> Result<(), Fault>
        ensures ok { OnOk result (d64_seen self.new ≡ formatted_as id (with_content blank (d64_seen self.old))) }
        ensures refused { IfSome (format_refusal self.old.protected)
            (λ code. result ≡ Err (record { code = code; at = directory_head })) }
        ensures err { IfErr result (λ fault. (fault.at ≡ directory_head)
            × IsRefused (format_refusal self.old.protected) fault (d64_seen self.old) (d64_seen self.new)) }
        ensures erased { OnOk result (IsErased self.old.bytes self.new.bytes) }
        ensures unchanged { OnErr result (self.new ≡ self.old) }
    {
        if self.protected {
            return Err(Fault {
                code: WRITE_PROTECT_ON,
                at: Address::of_map(),
            });
        }
        erase(self.bytes.as_mut_slice());
        Ok(())
    }

    #[tactic(auto, using(crate::proofs::Sectors::image_whole))]
    fn tracks(&self) -> u8 {
        tracks_in(self.bytes.len())
    }

    fn protected(&self) -> bool {
        self.protected
    }

    fn failures(&self) -> u64 {
        0
    }
}

impl Steady for D64Disk {
    ghost steady = { λ d. refl };
}
