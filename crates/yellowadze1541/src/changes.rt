//! New images, and changes of one.
ghost use Rattle.std.specs.Prelude.{◌≡◌, ◌≤◌, ◌<◌, ◌⊎◌, ◌∷◌, [], true, false, length, MatchResult};
ghost use Rattle.cbm_file.specs.Files.{Disk};
ghost use Rattle.cbm_machine.specs.Machines.{start};
ghost use Rattle.cbm_image.specs.Images.{kind_of, tracks_of, ImageHolds};
ghost use Rattle.cbm_shell.specs.Changing.{IsFine};
ghost use Rattle.cbm_shell.specs.Images.{IsOpenFault};
ghost use Rattle.cbm_shell.specs.Making.{IsNew};
ghost use Rattle.cbm_shell.specs.Converting.{IsConverted};
ghost use Rattle.cbm_device.specs.Answers.{refusal_of, GivesBytes};
ghost use Rattle.cbm_device.specs.Looking.{IsAccepted, IsSound};
ghost use Rattle.cbm_device.specs.Making.{after_command, after_put, opened_for, IsUnmade, IsUnchanged, IsWantOfMemory};
ghost use Rattle.cbm_shell.specs.declared.fault.ShellFault.{ShellFault};
ghost use Rattle.yellowadze1541.specs.Looks.{flag};
ghost use Rattle.yellowadze1541.specs.Slots.{IsSomeFault};
ghost use Rattle.yellowadze1541.specs.Odd.{is_validate, IsMadeAround, IsNotMadeAround};
ghost use Rattle.yellowadze1541.specs.Changes.{form_of, IsRefusedNew, IsLossOf};

use crate::commands::{unsaid, with_command};
use crate::odd::{is_validate, or_around};
use crate::putting::with_files;
use crate::shapes::{File, Lost, flag};
use cbm_device::{DeviceRefusal, give, given, number};
use cbm_shell::{DiskChange, Form, Losses, convert, new_image};
use std::alloc::Global;

/// The longest title.
const TITLE: usize = 16;

/// A command for the drive, such as `S0:NAME`, is carried out on an image's disk, and the new image is given.
#[unsafe(no_mangle)]
pub extern "C" fn y1541_image_command(
    alloc: Global,
    image: &[u8],
    text: &[u8],
    out: &mut [u8],
    needed: &mut usize,
) -> i32
    ensures made { let kind = kind_of image.now in (d : Disk) → ImageHolds kind image.now d →
        let m = start d false (tracks_of kind image.now) in let after = after_command text.now m in
        GivesBytes result out.old out.new needed.old needed.new
        (λ bytes. IsFine after.status × ImageHolds kind bytes after.disk) (IsUnmade image.now after after) }
    // Of any disk: it is sound, or it is changed around its odd entries; but VALIDATE changes sound ones alone.
    ensures sound { GivesBytes result out.old out.new needed.old needed.new
        (λ bytes. (IsAccepted image.now × IsSound image.now) ⊎ IsMadeAround image.now (after_command text.now) bytes)
        (λ r. IsUnchanged image.now r ⊎ IsSomeFault (IsNotMadeAround image.now (after_command text.now)) r) }
    ensures validate { is_validate text.now ≡ true → GivesBytes result out.old out.new needed.old needed.new
        (λ _. IsAccepted image.now × IsSound image.now) (IsUnchanged image.now) }
{
    let mut said = unsaid();
    let made = with_command(alloc, image, text, &mut said);
    let change = DiskChange::Command(text);
    let made = or_around(alloc, image, made, &change, !is_validate(text));
    number(given(made, out, needed))
}

/// A file is put on an image's disk, as an OPEN with this text, such as `NAME,P,W`, would write it, and the new image is given.
#[unsafe(no_mangle)]
pub extern "C" fn y1541_image_put(
    alloc: Global,
    image: &[u8],
    text: &[u8],
    bytes: &[u8],
    out: &mut [u8],
    needed: &mut usize,
) -> i32
    ensures made { let kind = kind_of image.now in (d : Disk) → ImageHolds kind image.now d →
        let m = start d false (tracks_of kind image.now) in let after = after_put text.now bytes.now m in
        GivesBytes result out.old out.new needed.old needed.new
        (λ image. IsFine after.status × ImageHolds kind image after.disk)
        (IsUnmade image.now (opened_for text.now m) after) }
    // Of any disk: it is sound, or it is changed around its odd entries.
    ensures sound { GivesBytes result out.old out.new needed.old needed.new
        (λ image_new. (IsAccepted image.now × IsSound image.now) ⊎ IsMadeAround image.now (after_put text.now bytes.now) image_new)
        (λ r. IsUnchanged image.now r ⊎ IsSomeFault (IsNotMadeAround image.now (after_put text.now bytes.now)) r) }
{
    let mut put = 0;
    let files = [File { text, bytes }];
    let made = with_files(alloc, image, &files, &mut put);
    let change = DiskChange::File(text, bytes);
    let made = or_around(alloc, image, made, &change, true);
    number(given(made, out, needed))
}

/// The form of a number.
fn form_with(form: u8) -> Form
    requires { form < 3 }
    ensures { result ≡ form_of form }
{
    match form {
        0 => Form::D64,
        1 => Form::LongD64,
        _ => Form::G64,
    }
}

/// A new image. The one error is `Memory`.
fn made(alloc: Global, form: Form, title: &[u8], id: [u8; 2]) -> Result<Vec<u8>, DeviceRefusal>
    requires { length title.now ≤ 16 }
    ensures { MatchResult result (λ v. IsNew form title.now id v.items) IsWantOfMemory }
{
    match new_image(alloc, form, title, id) {
        Ok(image) => Ok(image),
        Err(_) => Err(DeviceRefusal::Memory),
    }
}

/// A new image of an empty disk with a title of at most sixteen bytes and an id. The form is 0 for a D64 of 35 tracks, 1 for one
/// of 40, 2 for a G64.
#[unsafe(no_mangle)]
pub extern "C" fn y1541_image_new(
    alloc: Global,
    form: u8,
    title: &[u8],
    id0: u8,
    id1: u8,
    out: &mut [u8],
    needed: &mut usize,
) -> i32
    ensures made { form < 3 → length title.now ≤ 16 → GivesBytes result out.old out.new needed.old needed.new
        (IsNew (form_of form) title.now (id0 ∷ id1 ∷ [])) IsWantOfMemory }
    ensures refused { (2 < form) ⊎ (16 < length title.now) →
        IsRefusedNew result out.old out.new needed.old needed.new }
{
    if form > 2 || title.len() > TITLE {
        return DeviceRefusal::Invalid.number();
    }
    number(given(made(alloc, form_with(form), title, [id0, id1]), out, needed))
}

/// What is lost.
fn spelled(losses: &Losses) -> Lost
    ensures unreadable { result.unreadable ≡ length losses.now.unreadable.items }
    ensures tracks { result.tracks ≡ flag losses.now.more_tracks }
    ensures errors { result.errors ≡ flag losses.now.error_bytes }
    ensures id { result.id ≡ flag losses.now.header_id }
{
    Lost {
        unreadable: losses.unreadable.len(),
        tracks: flag(losses.more_tracks),
        errors: flag(losses.error_bytes),
        id: flag(losses.header_id),
    }
}

/// An image of the other format, and what it doesn't hold.
#[tactic(auto, using(crate::proofs::Flags::says_yes))]
#[unsafe(no_mangle)]
pub extern "C" fn y1541_image_convert(
    alloc: Global,
    image: &[u8],
    lost: &mut Lost,
    out: &mut [u8],
    needed: &mut usize,
) -> i32
    ensures { GivesBytes result out.old out.new needed.old needed.new
        (λ bytes. IsConverted image.now bytes × IsLossOf image.now lost.new)
        (λ r. (fault : ShellFault) × IsOpenFault image.now fault × (r ≡ refusal_of fault) × (lost.new ≡ lost.old)) }
{
    match convert(alloc, image) {
        Ok(converted) => {
            *lost = spelled(&converted.lost);
            number(give(converted.image.as_slice(), out, needed))
        }
        Err(fault) => DeviceRefusal::from(fault).number(),
    }
}
