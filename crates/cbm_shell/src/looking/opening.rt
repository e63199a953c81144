//! The disk of an image, for several looks.
ghost use Rattle.std.specs.Prelude.{◌≡◌, None, IfErr, IfOk};
ghost use Rattle.cbm_image.specs.AnyDisks.{any_seen};
ghost use Rattle.cbm_image.specs.Images.{image_fault, kind_of};
ghost use Rattle.cbm_shell.specs.Images.{IsImageOpened, IsOpenFault};

use crate::fault::ShellFault;
use crate::images::opened;
use cbm_image::AnyDisk;
use cbm_volume::Volume;
use std::alloc::Global;

/// The disk of files of an image, opened once, however often one looks into it. Errors: `Image`, `Memory`.
pub fn open_disk(alloc: Global, image: &[u8]) -> Result<Volume<AnyDisk>, ShellFault>
    ensures ok { IfOk result (λ disk. IsImageOpened image.now (any_seen disk)) }
    ensures err { IfErr result (IsOpenFault image.now) }
    // An image without fault is always opened, if there is memory.
    ensures accepted { image_fault (kind_of image.now) image.now ≡ None →
        IfErr result (λ fault. fault ≡ ShellFault.Memory) }
{
    Ok(Volume::open(opened(alloc, image)?))
}
