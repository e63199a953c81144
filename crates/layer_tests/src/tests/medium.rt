use cbm_medium::{Address, Geometry, Link, sectors_of};

/// How many sectors of a track there are, by asking for each.
fn sectors_found(track: u8) -> u32 {
    let mut found = 0u32;
    for sector in 0..=255u8 {
        if Address::new(track, sector).is_some() {
            found = found.saturating_add(1);
        }
    }
    found
}

fn has_sectors(track: u8, sectors: u32) -> bool {
    sectors_found(track) == sectors && sectors_of(track) as u32 == sectors
}

#[test]
fn there_are_768_sectors(rt: HostRuntime) {
    for (first, last, sectors) in [(1, 17, 21), (18, 24, 19), (25, 30, 18), (31, 40, 17)] {
        for track in first..=last {
            assert!(rt; has_sectors(track, sectors));
        }
    }
    for track in [0, 41, 255] {
        assert!(rt; sectors_found(track) == 0);
    }
    assert!(rt; Geometry::of_35().sectors() == 683);
    assert!(rt; Geometry::of_40().sectors() == 768);
}

/// Whether a link names a sector of a disk of 35 tracks, and of 40, and whether it is a chain's end.
fn answers(track: u8, sector: u8) -> [bool; 3] {
    let link = Link::new(track, sector);
    [
        link.address(Geometry::of_35()).is_some(),
        link.address(Geometry::of_40()).is_some(),
        link.is_end(),
    ]
}

#[test]
fn a_link_names_a_sector_of_the_disk_or_none(rt: HostRuntime) {
    for (track, sector, wanted) in [
        (0, 255, [false, false, true]),
        (18, 0, [true, true, false]),
        (18, 19, [false, false, false]),
        (36, 0, [false, true, false]),
    ] {
        assert!(rt; answers(track, sector) == wanted);
    }
}
