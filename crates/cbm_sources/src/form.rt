ghost use Rattle.std.specs.Prelude.{◌≡◌, ◌<◌, ◌+◌, IfSome, None};
ghost use Rattle.cbm_medium.specs.Place.{Place};
ghost use Rattle.cbm_sources.specs.Forms.{form_tracks, form_sectors, sectors_on_track, sectors_ahead, place_in_image, index_in_image, HasSector, IsSizeOf};
ghost use Rattle.cbm_sources.specs.Directories.{directory_limit};

use cbm_medium::Link;

/// The form of a disk image: a number of tracks, and of sectors on each.
#[derive(Clone, Copy, Debug, PartialEq, Eq)]
pub enum Form {
    /// The 1541's own 35 tracks.
    D64Of35,
    /// 40 tracks.
    D64Of40,
    /// 42 tracks.
    D64Of42,
    /// The 1571's two sides of 35 tracks; the second side's are 36 to 70.
    D71,
    /// The 1581's 80 tracks of 40 sectors.
    D81,
}

/// The form of an image of this many bytes, with an error byte for each sector or without; None if no form has this size.
pub fn form_of(bytes: usize) -> Option<Form>
    ensures some { IfSome result (λ form. IsSizeOf form bytes) }
    ensures none { result ≡ None → (form : Form) → IsSizeOf form bytes → ⊥ }
{
    match bytes {
        174_848 | 175_531 => Some(Form::D64Of35),
        196_608 | 197_376 => Some(Form::D64Of40),
        205_312 | 206_114 => Some(Form::D64Of42),
        349_696 | 351_062 => Some(Form::D71),
        819_200 | 822_400 => Some(Form::D81),
        _ => None,
    }
}

impl Form {
    /// How many tracks its disk has.
    pub fn tracks(self) -> u8
        ensures { result ≡ form_tracks self }
    {
        match self {
            Form::D64Of35 => 35,
            Form::D64Of40 => 40,
            Form::D64Of42 => 42,
            Form::D71 => 70,
            Form::D81 => 80,
        }
    }

    /// How many sectors its disk has.
    pub fn sectors(self) -> u16
        ensures { result ≡ form_sectors self }
    {
        match self {
            Form::D64Of35 => 683,
            Form::D64Of40 => 768,
            Form::D64Of42 => 802,
            Form::D71 => 1366,
            Form::D81 => 3200,
        }
    }

    /// How many sectors the directory of its disk has at most: those that its track has for it.
    pub fn directory_limit(self) -> u16
        ensures { result ≡ directory_limit self }
    {
        match self {
            Form::D81 => 37,
            _ => 18,
        }
    }

    /// How many sectors a track of its disk has, 0 if there is no such track.
    pub fn sectors_of(self, track: u8) -> u8
        ensures { result ≡ sectors_on_track self track }
    {
        if track > self.tracks() {
            return 0;
        }
        match self {
            Form::D64Of35 | Form::D64Of40 => cbm_medium::sectors_of(track),
            Form::D64Of42 => cbm_medium::sectors_of(track.min(40)),
            Form::D71 if track < 36 => cbm_medium::sectors_of(track),
            Form::D71 => cbm_medium::sectors_of(track - 35),
            Form::D81 if track == 0 => 0,
            Form::D81 => 40,
        }
    }

    /// How many sectors come before a track.
    fn sectors_before(self, track: u8) -> usize
        ensures { result ≡ sectors_ahead self track }
    {
        let mut before = 0;
        for earlier in 0..track {
            before += self.sectors_of(earlier) as usize;
        }
        before
    }

    /// How many sectors come before this one, None if the disk has no such sector.
    #[tactic(auto, using(crate::proofs::Places::index_inside))]
    pub(crate) fn index(self, at: Link) -> Option<usize>
        ensures value { result ≡ place_in_image self at }
        ensures inside { IfSome result (λ place. place < form_sectors self) }
    {
        if at.sector() < self.sectors_of(at.track()) {
            Some(self.sectors_before(at.track()) + at.sector() as usize)
        } else {
            None
        }
    }
}

/// No two sectors of a disk stand at one place of its image.
pub fn sectors_lie_apart()
    ensures { (form : Form) (p q : Place) → HasSector form p → HasSector form q → index_in_image form p ≡ index_in_image form q → p ≡ q }
{}
