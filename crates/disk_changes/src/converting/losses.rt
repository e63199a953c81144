//! What an image in the other format lacks.
use cbm_image::Kind;
use cbm_shell::Losses;
use std::io;

/// Reports the sectors that can't be read.
fn tell_unreadable(rt: &impl Eprint, output: &str, lost: &Losses) -> io::Result<()> {
    let Some(first) = lost.unreadable.as_slice().first() else {
        return Ok(());
    };
    let count = lost.unreadable.len();
    let code = first.code;
    let track = first.at.track();
    let sector = first.at.sector();
    eprintln!(rt;
        "disk1541: {output} would have zeros in {count} unreadable sectors, the first at track {track}, sector {sector} (error {code})"
    )
}

/// Reports the tracks that are too many.
fn tell_tracks(rt: &impl Eprint, output: &str, old: Kind) -> io::Result<()> {
    match old {
        Kind::D64 => {
            eprintln!(rt;
                "disk1541: {output} can't hold tracks 36 to 40: if they are free, use `convert --tracks 35` first"
            )
        }
        Kind::G64 => {
            eprintln!(rt; "disk1541: {output} can't hold half tracks and tracks beyond 35")
        }
    }
}

/// Reports what a new image lacks.
pub fn tell_lost(rt: &impl Eprint, output: &str, lost: &Losses, old: Kind) -> io::Result<()> {
    tell_unreadable(rt, output, lost)?;
    if lost.more_tracks {
        tell_tracks(rt, output, old)?;
    }
    if lost.error_bytes {
        eprintln!(rt; "disk1541: {output} can't hold the error bytes")?;
    }
    if lost.header_id {
        eprintln!(rt;
            "disk1541: {output} can't keep the id in the headers: 18/0 has a different one"
        )?;
    }
    Ok(())
}
