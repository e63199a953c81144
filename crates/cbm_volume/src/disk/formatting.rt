// NEW: an empty disk.

ghost use Rattle.std.specs.Prelude.{◌≡◌, ◌≢◌, ◌≤◌, ◌⊎◌, List, None, Some, Ok, Err, OnOk, OnErr, IfOk, IfErr, length, slice_range, take, drop, ◌++◌};
ghost use Rattle.cbm_medium.specs.Place.{directory_head};
ghost use Rattle.cbm_medium.specs.Content.{written};
ghost use Rattle.cbm_medium.specs.Seen.{ShowsGround, OnlyContent};
ghost use Rattle.cbm_file.specs.Files.{Disk};
ghost use Rattle.cbm_file.specs.Changes.{new_disk};
ghost use Rattle.cbm_bam.specs.Map.{map_of};
ghost use Rattle.cbm_bam.specs.Marks.{is_marked};
ghost use Rattle.cbm_directory.specs.Entries.{first_directory};
ghost use Rattle.cbm_directory.specs.Growth.{new_sector};
ghost use Rattle.cbm_volume.specs.Calls.{OfDisk, OfUnusedDisk, KeepsProtected};
ghost use Rattle.cbm_volume.specs.Holding.{HoldsDisk};
ghost use Rattle.cbm_volume.specs.Layouts.{IsCellWritable};
ghost use Rattle.cbm_volume.specs.NewDisks.{used_by_new, new_label, around_map, IsNewHead, IsEmptied, IsNewOrNothing, OnlyNew, EmptiesDisk};
ghost use Rattle.cbm_volume.specs.Opens.{IsHindered};
ghost use Rattle.cbm_volume.specs.Writers.{HoldsNow};

use crate::volume::Volume;
use cbm_bam::{SectorSet, anew, read_map};
use cbm_file::padded;
use cbm_medium::{Address, Geometry, Medium, Trouble};
use std::ops::Range;

/// The byte that fills the label up.
const FILLER: u8 = 0xA0;

/// Where the label stands in 18/0.
const LABEL: Range<usize> = 144..171;

/// The sector in which the directory begins.
fn first_directory_sector() -> Address
    ensures { result ≡ first_directory }
{
    Address::new(18, 1).unwrap()
}

/// The sectors that an empty disk uses.
fn used_by_new() -> SectorSet
    ensures { is_marked result ≡ used_by_new }
{
    let mut used = SectorSet::new();
    used.insert(Address::of_map());
    used.insert(first_directory_sector());
    used
}

/// The title, the id and the kind of DOS as they stand in 18/0 from byte 144 on, with $A0 around them.
fn new_label(title: &[u8], id: [u8; 2]) -> [u8; 27]
    requires { length title.now ≤ 16 }
    ensures { result ≡ new_label title.now id }
{
    let mut label = [FILLER; 27];
    label[18] = id[0];
    label[19] = id[1];
    label[21] = b'2';
    label[22] = b'A';
    label[..16].copy_from_slice(&padded(title));
    label
}

/// Writes the label into the bytes of 18/0.
fn put_label(head: &mut [u8; 256], title: &[u8], id: [u8; 2])
    requires { length title.now ≤ 16 }
    ensures { head.new ≡ take 144 head.old ++ (new_label title.now id ++ drop 27 (drop 144 head.old)) }
{
    head[LABEL].copy_from_slice(&new_label(title, id));
}

/// The bytes of 18/0 around the map: the link to 18/1, the letter of the format, and the label.
fn around_map(title: &[u8], id: [u8; 2]) -> [u8; 256]
    requires { length title.now ≤ 16 }
    ensures { result ≡ around_map title.now id }
{
    let mut head = [0; 256];
    head[0] = 18;
    head[1] = 1;
    head[2] = b'A';
    put_label(&mut head, title, id);
    head
}

/// The 256 bytes of 18/0 on an empty disk of these tracks.
fn new_head(title: &[u8], id: [u8; 2], geometry: Geometry) -> [u8; 256]
    requires { length title.now ≤ 16 }
    ensures { IsNewHead geometry title.now id result }
{
    anew(&around_map(title, id), geometry, &used_by_new())
}

/// The first sector of an empty directory, which is the last one too.
fn empty_directory() -> [u8; 256]
    ensures { result ≡ new_sector }
{
    let mut sector = [0; 256];
    sector[1] = 0xFF;
    sector
}

/// All tracks of the medium.
fn all_tracks<M: Medium>(medium: &M) -> Geometry
    ensures value { result ≡ (M.seen medium.now).tracks }
    ensures either { (result ≡ 35) ⊎ (result ≡ 40) }
{
    if medium.tracks() < 40 {
        return Geometry::of_35();
    }
    Geometry::of_40()
}

/// The id that 18/0 has, or the medium's fault there.
fn told_id<M: Medium>(medium: &M) -> Result<[u8; 2], Trouble>
    ensures ok { IfOk result (λ id. id ≡ slice_range (map_of (M.seen medium.now).content) 162 164) }
    ensures err { IfErr result (λ t. (M.seen medium.now).content directory_head ≡ Err t.code) }
    ensures never_26 { IfErr result (λ t. t.code ≢ 26) }
    ensures shown { IfErr result (ShowsGround (M.seen medium.now)) }
{
    let map = read_map(medium, all_tracks(medium))?;
    Ok([map[162], map[163]])
}

/// Writes 18/1 and then 18/0 of an empty disk on all tracks of the medium.
fn write_new<M: Medium>(medium: &mut M, title: &[u8], id: [u8; 2]) -> Result<(), Trouble>
    requires { length title.now ≤ 16 }
    ensures either { let tracks = (M.seen medium.old).tracks in (tracks ≡ 35) ⊎ (tracks ≡ 40) }
    ensures emptied { let old = M.seen medium.old in
        OnOk result (IsEmptied old.tracks title.now id old.content (M.seen medium.new).content) }
    ensures cause { let old = M.seen medium.old in IsCellWritable (old.content directory_head) →
        IsCellWritable (old.content first_directory) → IfErr result (IsHindered old (M.seen medium.new)) }
    ensures stopped { let old = (M.seen medium.old).content in let new = (M.seen medium.new).content in
        OnErr result ((new ≡ old) ⊎ (new ≡ written old first_directory new_sector)) }
    ensures protected { KeepsProtected (M.seen medium.old) (M.seen medium.new) }
    ensures only { OnlyContent 18 result (M.seen medium.old) (M.seen medium.new) }
{
    let head = new_head(title, id, all_tracks(medium));
    // 18/1 comes first: an empty directory under the old BAM is sound, files under a BAM that has their blocks as free are not.
    medium.write(first_directory_sector(), &empty_directory())?;
    medium.write(Address::of_map(), &head)?;
    Ok(())
}

impl<M: Medium> Volume<M> {
    /// NEW: an empty disk of this title on all tracks of the medium. With an id each sector is formatted first, so it
    /// needs no sound disk; without one only 18/0 and 18/1 are written, and the id of 18/0 stays. The title has at
    /// most sixteen bytes. An `Err` says on a sound disk that the medium is protected (26), which changes nothing, or
    /// failed by itself. Then nothing has changed, or the disk is sound and has no file.
    pub fn new_disk(&mut self, title: &[u8], id: Option<[u8; 2]>) -> Result<(), Trouble>
        requires { length title.now ≤ 16 }
        ensures made { let old = M.seen self.old in OfUnusedDisk old (λ d uses.
            OnOk result (HoldsNow old.tracks (M.seen self.new).content (new_disk old.tracks title.now id d) uses)) }
        ensures formatted { let old = M.seen self.old in id ≢ None → (d : Disk) →
            OnOk result (HoldsDisk old.tracks (M.seen self.new).content (new_disk old.tracks title.now id d)) }
        ensures emptied { EmptiesDisk result title.now id (M.seen self.old) (M.seen self.new) }
        ensures stopped { let old = M.seen self.old in OfUnusedDisk old (λ d uses.
            OnErr result (IsNewOrNothing old.tracks old.content (M.seen self.new).content)) }
        ensures stopped_format { let old = M.seen self.old in id ≢ None →
            OnErr result (IsNewOrNothing old.tracks old.content (M.seen self.new).content) }
        ensures protected { KeepsProtected (M.seen self.old) (M.seen self.new) }
        ensures only { OnlyNew result id (M.seen self.old) (M.seen self.new) }
        ensures cause { OfDisk (M.seen self.old) (λ d uses. IfErr result (IsHindered (M.seen self.old) (M.seen self.new))) }
    {
        let Some(id) = id else {
            let id = told_id(&self.medium)?;
            return write_new(&mut self.medium, title, id);
        };
        self.medium.format(id)?;
        write_new(&mut self.medium, title, id)
    }
}
