ghost use Rattle.std.specs.Prelude.{refl, ◌≡◌, ◌≤◌, ◌-◌, ◌⊎◌, ◌↔◌, ℕ, Ok, Err, None, Some, false, true, IfErr, IfOk, IfSome, IsSome, OnErr, OnOk, length};
ghost use Rattle.cbm_medium.specs.Place.{Has, Place, directory_head};
ghost use Rattle.cbm_medium.specs.Content.{blank, format_refusal, refusal, written};
ghost use Rattle.cbm_medium.specs.Seen.{with_content, formatted_as, write_refusal, IsRefused};
ghost use Rattle.cbm_g64.specs.File.{g64_fault, g64_circles};
ghost use Rattle.cbm_g64.specs.NewFile.{base_of, new_file};
ghost use Rattle.cbm_g64.specs.Rest.{g64_rest};
ghost use Rattle.cbm_g64.specs.Tracks.{bits_at, g64_content, id_for, or_zeros, g64_seen, AreFilled, AreFresh, AreLaid, HasTrack, IsCircleChanged, IsPut};
ghost use Rattle.cbm_g64.specs.Image.{IsImageOf};

use crate::checks::fault_of;
use crate::circles::{format_on, read_on, tracks_of, write_on};
use crate::copying::image_of;
use crate::fault::G64Fault;
use crate::image::{base, offset_in, put_tracks};
use cbm_medium::codes::WRITE_PROTECT_ON;
use cbm_medium::{Address, Fault, Medium, Steady};
use cbm_sector::IndexedTrack;
use cbm_track::Track;
use std::alloc::Global;
use std::marker::Model;

/// A disk in memory, as a G64 image: its tracks 1 to 35 as circles of bits, and beside them the
/// bytes of the file that they came in.
#[derive(Drop)]
pub struct G64Disk {
    tracks: Vec<IndexedTrack>,
    // What 18/0 answers: the BAM is asked for with each block that is claimed or checked.
    head: Result<[u8; 256], Fault>,
    file: Vec<u8>,
    formatted: bool,
    protected: bool,
}

impl Model for G64Disk {
    ghost use Rattle.cbm_g64.specs.Tracks.{G64State};
    ghost use Rattle.cbm_g64.specs.NewFile.{base_of};
    ghost use Rattle.cbm_g64.specs.Head.{IsHead};
    ghost use Rattle.cbm_g64.specs.Image.{IsHeld};

    ghost Value = { G64State };

    ghost view = { λ d. record {
      tracks = d.tracks.items;
      file = d.file.items;
      formatted = d.formatted;
      protected = d.protected;
    } };

    ghost invariant = { λ d. (IsHeld (base_of d.formatted d.file.items) d.tracks.items) × (IsHead d.tracks.items d.head) };
}

impl G64Disk {
    /// The disk that an image is. Takes memory for all that the disk ever holds, after all other
    /// tests.
    pub fn from_bytes(alloc: Global, bytes: &[u8], protected: bool) -> Result<G64Disk, G64Fault>
        ensures ok { IfOk result (λ d. d ≡ (record {
          tracks = g64_circles bytes.now 35;
          file = bytes.now;
          formatted = false;
          protected = protected;
        })) }
        ensures refused { IfSome (g64_fault bytes.now) (λ fault. result ≡ Err fault) }
        ensures cause { IfErr result (λ fault. (g64_fault bytes.now ≡ Some fault) ⊎ (fault ≡ G64Fault.Memory)) }
    {
        match fault_of(bytes) {
            Some(fault) => return Err(fault),
            None => {}
        }
        let Ok(tracks) = tracks_of(alloc, bytes) else {
            return Err(G64Fault::Memory);
        };
        let Ok(file) = Vec::from_slice(alloc, bytes) else {
            return Err(G64Fault::Memory);
        };
        let head = read_on(tracks.as_slice(), Address::of_map());
        Ok(G64Disk {
            tracks,
            head,
            file,
            formatted: false,
            protected,
        })
    }

    /// The image of the disk: the file that it came in with its tracks as they are now, or after
    /// `format` a new file. Takes memory for it.
    pub fn to_bytes(&self, alloc: Global) -> Result<Vec<u8>, G64Fault>
        ensures ok { IfOk result (λ v. IsImageOf (base_of self.now.formatted self.now.file) self.now.tracks v.items) }
        // Opened again it is the same disk.
        ensures again { IfOk result (λ v. (g64_fault v.items ≡ None) × (g64_circles v.items 35 ≡ self.now.tracks)) }
        ensures rest { IfOk result (λ v. g64_rest v.items ≡ g64_rest (base_of self.now.formatted self.now.file)) }
        // A disk that nobody wrote gives its bytes back.
        ensures unwritten { self.now.formatted ≡ false → self.now.tracks ≡ g64_circles self.now.file 35
            → IfOk result (λ v. v.items ≡ self.now.file) }
        ensures err { IfErr result (λ fault. fault ≡ G64Fault.Memory) }
    {
        let file = self.file.as_slice();
        let Ok(mut out) = base(alloc, file, self.formatted) else {
            return Err(G64Fault::Memory);
        };
        put_tracks(
            file,
            self.formatted,
            self.tracks.as_slice(),
            out.as_mut_slice(),
        );
        Ok(out)
    }

    /// The image of a disk that was formatted under an id and then given the sectors of a medium of
    /// 35 tracks; a sector that doesn't read stays 256 zeros. Takes memory for it and for the tracks.
    pub fn from_sectors<M: Medium>(
        alloc: Global,
        medium: &M,
        id: [u8; 2],
    ) -> Result<Vec<u8>, G64Fault>
        requires { (M.seen medium.now).tracks ≡ 35 }
        ensures size { IfOk result (λ v. length v.items ≡ 278234) }
        ensures right { IfOk result (λ v. g64_fault v.items ≡ None) }
        // All but the tracks' bytes is that of a new file: entries, speeds, lengths and padding.
        ensures form { IfOk result (λ v. IsImageOf new_file (g64_circles v.items 35) v.items) }
        // Each data block stands where formatting puts it, between marks, headers and gaps as formatting writes them.
        ensures laid { IfOk result (λ v. AreLaid (g64_circles v.items 35)) }
        ensures filled { IfOk result (λ v. AreFilled id (g64_circles v.items 35)) }
        ensures shown { IfOk result (λ v. (p : Place) → Has 35 p →
            g64_content (g64_circles v.items 35) p ≡ or_zeros ((M.seen medium.now).content p)) }
        ensures id { IfOk result (λ v. id_for (g64_circles v.items 35) ≡ id) }
        ensures err { IfErr result (λ fault. fault ≡ G64Fault.Memory) }
    {
        image_of(alloc, medium, id)
    }

    /// The circle of a track as it stands; `None` if the image has no such track or it isn't 1
    /// to 35.
    pub fn track(&self, track: u8) -> Option<&Track>
        ensures some { IsSome result ↔ HasTrack self.now track }
        ensures value { IfSome result (λ t. t.now ≡ bits_at self.now.tracks track) }
    {
        if track == 0 || track > 35 {
            return None;
        }
        let i = track as usize - 1;
        if offset_in(self.file.as_slice(), self.formatted, i) == 0 {
            return None;
        }
        Some(self.tracks[i].track())
    }
}

impl Medium for G64Disk {
    ghost use Rattle.std.specs.Prelude.{refl};
    ghost use Rattle.cbm_g64.specs.Tracks.{g64_content, g64_seen};
    ghost use Rattle.cbm_g64.specs.Outer.{no_outer};
    ghost use Rattle.cbm_g64.specs.Faults.{g64_has_codes};

    ghost seen = { g64_seen };

    ghost codes = { λ d p. g64_has_codes d.tracks p };

    ghost outer_headers = { λ d p. no_outer 35 refl (g64_content d.tracks) p };

    #[tactic(auto, using(crate::proofs::Contents::known_code))]
    fn read(&self, at: Address) -> Result<[u8; 256], Fault> {
        if at == Address::of_map() {
            return self.head;
        }
        read_on(self.tracks.as_slice(), at)
    }

    fn write(&mut self, at: Address, bytes: &[u8; 256]) -> Result<(), Fault>
        requires { at.track ≤ 35 }
        ensures ok { let old = g64_seen self.old in
            OnOk result (g64_seen self.new ≡ with_content (written old.content at bytes.now) old) }
        ensures refused { IfSome (refusal self.old.protected (g64_content self.old.tracks at))
            (λ code. result ≡ Err (record { code = code; at = at })) }
        ensures err { IfErr result (λ fault. (fault.at ≡ at)
            × IsRefused (write_refusal (g64_seen self.old) at) fault (g64_seen self.old) (g64_seen self.new)) }

        // What the circles are then, which the content doesn't show.
        ensures changed { OnOk result (IsCircleChanged self.old.tracks self.new.tracks (at.track - 1)) }
        // Its own track, within the 2,600 bits of the sector's block.
        ensures block { OnOk result (IsPut self.old.tracks self.new.tracks at bytes.now) }
        ensures kept { self.new ≡ record self.old { tracks = self.new.tracks } }
        ensures unchanged { OnErr result (self.new ≡ self.old) }
    {
        if self.protected {
            return Err(Fault {
                code: WRITE_PROTECT_ON,
                at,
            });
        }
        write_on(self.tracks.as_mut_slice(), &mut self.head, at, bytes)
    }

    fn format(&mut self, id: [u8; 2]) -> Result<(), Fault>
        ensures ok { OnOk result (g64_seen self.new ≡ formatted_as id (with_content blank (g64_seen self.old))) }
        ensures refused { IfSome (format_refusal self.old.protected)
            (λ code. result ≡ Err (record { code = code; at = directory_head })) }
        ensures err { IfErr result (λ fault. (fault.at ≡ directory_head)
            × IsRefused (format_refusal self.old.protected) fault (g64_seen self.old) (g64_seen self.new)) }

        // The tracks are fresh ones, and the image will be a new file.
        ensures fresh { OnOk result (AreFresh id self.new.tracks) }
        ensures formatted { OnOk result (self.new.formatted ≡ true) }
        ensures unchanged { OnErr result (self.new ≡ self.old) }
    {
        if self.protected {
            return Err(Fault {
                code: WRITE_PROTECT_ON,
                at: Address::of_map(),
            });
        }
        format_on(self.tracks.as_mut_slice(), &id);
        self.head = Ok([0; 256]);
        self.formatted = true;
        Ok(())
    }

    #[tactic(auto, using(crate::proofs::Wholes::circles_whole))]
    fn tracks(&self) -> u8 {
        35
    }

    fn protected(&self) -> bool {
        self.protected
    }

    fn failures(&self) -> u64 {
        0
    }
}

impl Steady for G64Disk {
    ghost steady = { λ d. refl };
}
