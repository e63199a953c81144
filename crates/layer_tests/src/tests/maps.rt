//! Where a D64 of 40 tracks has the map of its tracks 36 to 40.
use disk_facts::{DOLPHIN, SPEED, WideMap, wide_map};
use std::test::Fail;

/// The bytes of a D64 of 40 tracks.
const LENGTH: usize = 196_608;

/// A D64 of 40 tracks with five rows of 17 free sectors at these places.
fn with_rows(rt: &HostRuntime, places: &[usize]) -> Result<Vec<u8>, Fail> {
    let mut image = vec![in rt.alloc(); 0u8; LENGTH]?;
    for place in places {
        for row in 0..5usize {
            for (n, byte) in [17u8, 255, 255, 1].iter().enumerate() {
                let at = place.saturating_add(4 * row + n);
                if let Some(to) = image.as_mut_slice().get_mut(at) {
                    *to = *byte;
                }
            }
        }
    }
    Ok(image)
}

#[test]
fn maps_are_told_apart(rt: HostRuntime) -> Result<(), Fail> {
    let none = with_rows(&rt, &[])?;
    assert_eq!(rt; wide_map(none.as_slice()), None);
    let speed = with_rows(&rt, &[SPEED])?;
    assert_eq!(rt; wide_map(speed.as_slice()), Some(WideMap::Speed));
    let dolphin = with_rows(&rt, &[DOLPHIN])?;
    assert_eq!(rt; wide_map(dolphin.as_slice()), Some(WideMap::Dolphin));
    let both = with_rows(&rt, &[DOLPHIN, SPEED])?;
    assert_eq!(rt; wide_map(both.as_slice()), Some(WideMap::Both));
    Ok(())
}
