// Disks of circles, bit by bit.

use cbm_d64::D64Disk;
use cbm_g64::G64Disk;
use cbm_medium::Medium;
use cbm_program::{Options, Pace, run};
use cbm_volume::Volume;
use std::alloc::Global;
use std::test::Fail;
use test_images::{empty_image, put};

/// The G64 image of a D64 image of 35 tracks.
fn circles_of(alloc: Global, image: &[u8], id: [u8; 2]) -> Result<Vec<u8>, Fail> {
    let disk = D64Disk::from_bytes(alloc, image, false)?;
    if disk.tracks() != 35 {
        return Err("forty tracks".into());
    }
    Ok(G64Disk::from_sectors(alloc, &disk, id)?)
}

/// The G64 image that NEW leaves of another one.
fn made_new(alloc: Global, image: &[u8], id: Option<[u8; 2]>) -> Result<Vec<u8>, Fail> {
    let mut volume = Volume::open(G64Disk::from_bytes(alloc, image, false)?);
    volume.new_disk(b"TEST", id)?;
    Ok(volume.into_medium().to_bytes(alloc)?)
}

/// Whether NEW makes an empty disk of a disk of zeros, and leaves the circles their id if it is given none.
fn is_made_new(alloc: Global) -> Result<bool, Fail> {
    let zeros = vec![in alloc; 0; 174_848]?;
    let empty = empty_image(alloc)?;
    let old = circles_of(alloc, zeros.as_slice(), *b"XY")?;
    let wanted = circles_of(alloc, empty.as_slice(), *b"AB")?;
    let made = made_new(alloc, old.as_slice(), Some(*b"AB"))?;
    let again = made_new(alloc, made.as_slice(), None)?;
    Ok(made.as_slice() == wanted.as_slice() && again.as_slice() == wanted.as_slice())
}

#[test]
fn a_disk_of_circles_is_formatted(rt: HostRuntime) -> Result<(), Fail> {
    assert!(rt; is_made_new(rt.alloc())?);
    Ok(())
}

/// Where track 17's bits begin in an image that was made from sectors, and how many bytes it has.
const SEVENTEEN: usize = 684 + 16 * 7930 + 2;

const LONG: usize = 7692;

/// The image with track 17 turned round by three bits.
fn turned(alloc: Global, image: &[u8]) -> Result<Vec<u8>, Fail> {
    let mut copy = vec![in alloc; 0; image.len()]?;
    put(&mut copy, 0, image);
    let circle = image.get(SEVENTEEN..).ok_or("no track")?;
    for k in 0..LONG {
        let afterwards = if k == LONG - 1 { 0 } else { k.wrapping_add(1) };
        let high = circle.get(k).ok_or("no byte")? << 3;
        let low = circle.get(afterwards).ok_or("no byte")? >> 5;
        put(&mut copy, SEVENTEEN.wrapping_add(k), &[high | low]);
    }
    Ok(copy)
}

/// An empty disk whose track 17 is turned.
fn turned_disk(alloc: Global) -> Result<Vec<u8>, Fail> {
    let empty = empty_image(alloc)?;
    let circles = circles_of(alloc, empty.as_slice(), *b"AB")?;
    turned(alloc, circles.as_slice())
}

/// Whether a script prints this on the disk of an image whose soundness is told first, and leaves the image as it is.
fn prints(alloc: Global, image: &[u8], script: &str, text: &str) -> bool {
    let options = Options {
        device: 8,
        pace: Pace::Profile,
        protected: false,
        check: true,
    };
    let mut printed: Vec<u8> = Vec::new(alloc);
    match run(alloc, script.as_bytes(), &mut printed, image, &options) {
        Ok(ended) => ended.as_slice() == image && printed.as_slice() == text.as_bytes(),
        Err(_) => false,
    }
}

/// The image after a script that writes the program HELLO.
fn with_hello(alloc: Global, image: &[u8]) -> Option<Vec<u8>> {
    let options = Options {
        device: 8,
        pace: Pace::Profile,
        protected: false,
        check: false,
    };
    let script = "open 1 HELLO\nput 1 \\01\\02\\03\nclose 1\n";
    let mut printed: Vec<u8> = Vec::new(alloc);
    run(alloc, script.as_bytes(), &mut printed, image, &options).ok()
}

/// Whether two images are the same but on the tracks 17 and 18, and on 17 but for the bytes of one block.
fn differ_in_a_block(new: &[u8], old: &[u8]) -> bool {
    let mut first = None;
    let mut last = 0usize;
    for (at, (one, other)) in new.iter().zip(old.iter()).enumerate() {
        if one != other && at.wrapping_sub(SEVENTEEN) < LONG {
            first = first.or(Some(at));
            last = at;
        } else if one != other && at.wrapping_sub(SEVENTEEN + 7930) >= LONG {
            return false;
        }
    }
    new.len() == old.len() && first.is_some_and(|first| last.wrapping_sub(first) < 326)
}

/// Whether a disk with a turned track takes a file.
fn takes_a_file(alloc: Global) -> Result<bool, Fail> {
    let image = turned_disk(alloc)?;
    let written = with_hello(alloc, image.as_slice()).ok_or("refused")?;
    let script = "open 0 HELLO\nget 0 9\n";
    let text = "check sound\nget 0 010203 eoi\n";
    Ok(
        prints(alloc, written.as_slice(), script, text)
            && differ_in_a_block(written.as_slice(), image.as_slice()),
    )
}

#[test]
fn a_turned_track_takes_a_file(rt: HostRuntime) -> Result<(), Fail> {
    assert!(rt; takes_a_file(rt.alloc())?);
    Ok(())
}
