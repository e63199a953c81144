//! The sectors of an image.
ghost use Rattle.std.specs.Prelude.{◌≡◌, ◌<◌, ◌≤◌, ◌+◌, ◌*◌, length, IfOk, IfErr, IfSome, Some, None, Err};
ghost use Rattle.cbm_d64.specs.Image.{code_of_error, sector_at};
ghost use Rattle.cbm_sources.specs.Forms.{form_sectors, IsSizeOf};
ghost use Rattle.cbm_sources.specs.Sectors.{SourceImage, error_of, image_content};

use crate::form::{Form, form_of};
use cbm_medium::codes::{DISK_ID_MISMATCH, HEADER_CHECKSUM, ILLEGAL_LINK};
use cbm_medium::{Link, Trouble};
use std::marker::Model;

/// The disk of an image.
#[derive(Drop)]
pub struct Disk<'a> {
    form: Form,
    bytes: &'a [u8],
}

impl<'a> Model for Disk<'a> {
    ghost use Rattle.std.specs.Prelude.{length};
    ghost use Rattle.cbm_sources.specs.Forms.{IsSizeOf};
    ghost use Rattle.cbm_sources.specs.Sectors.{SourceImage};

    ghost Value = { SourceImage };

    ghost view = { λ d. record { form = d.form; bytes = d.bytes.now } };

    ghost invariant = { λ d. IsSizeOf d.form (length d.bytes.now) };
}

/// The status code that an error byte means (the D64 format).
fn fault_code(error: u8) -> Option<u8>
    ensures { result ≡ code_of_error error }
{
    match error {
        2..=6 => Some(error + 18),
        9 => Some(HEADER_CHECKSUM),
        11 => Some(DISK_ID_MISMATCH),
        _ => None,
    }
}

/// The fault of a sector, if its error byte is one.
fn code_at(form: Form, image: &[u8], place: usize) -> Option<u8>
    requires size { IsSizeOf form (length image.now) }
    requires place { place < form_sectors form }
    ensures { result ≡ code_of_error (error_of form image.now place) }
{
    let sectors = form.sectors() as usize;
    if image.len() == 257 * sectors {
        fault_code(image[256 * sectors + place])
    } else {
        None
    }
}

/// The bytes of a sector.
fn sector(image: &[u8], place: usize) -> [u8; 256]
    requires { 256 * place + 256 ≤ length image.now }
    ensures { result ≡ sector_at image.now place }
{
    let mut sector = [0; 256];
    sector.copy_from_slice(&image[256 * place..256 * place + 256]);
    sector
}

impl<'a> Disk<'a> {
    /// The disk of an image, None if no form has its size.
    pub fn of(bytes: &'a [u8]) -> Option<Disk<'a>>
        ensures some { IfSome result (λ d. d.bytes ≡ bytes.now) }
        ensures size { IfSome result (λ d. IsSizeOf d.form (length bytes.now)) }
        ensures none { result ≡ None → (form : Form) → IsSizeOf form (length bytes.now) → ⊥ }
    {
        let form = form_of(bytes.len())?;
        Some(Disk { form, bytes })
    }

    /// Its form.
    pub fn form(&self) -> Form
        ensures { result ≡ self.now.form }
    {
        self.form
    }

    /// The 256 bytes of a sector: 66 if the disk has no such sector, else the fault that its error byte means, if one does.
    #[tactic(auto, unfolding(crate::specs::Sectors::image_content))]
    pub fn read(&self, at: Link) -> Result<[u8; 256], Trouble>
        ensures ok { IfOk result (λ bytes. image_content self.now at ≡ Ok bytes) }
        ensures err { IfErr result (λ t. image_content self.now at ≡ Err t.code) }
        ensures named { IfErr result (λ t. t ≡ (record { code = t.code; track = at.track; sector = at.sector })) }
    {
        let Some(place) = self.form.index(at) else {
            return Err(at.trouble(ILLEGAL_LINK));
        };
        if let Some(code) = code_at(self.form, self.bytes, place) {
            return Err(at.trouble(code));
        }
        Ok(sector(self.bytes, place))
    }
}
