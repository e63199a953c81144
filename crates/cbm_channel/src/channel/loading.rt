// A channel of bytes.
ghost use Rattle.std.specs.Prelude.{◌≡◌, ◌≤◌, ℕ, length, IfSome, IsSome, MatchOption, None, Some, option_map};
ghost use Rattle.std.specs.List.{All};
ghost use Rattle.cbm_channel.specs.Loaded.{loaded_tracks as tracks_in, loaded_place, listing_of as listing_with, listing_at as listing_in, reading_of, loaded_file as file_in, chain_with, chain_at as chain_in, writing_at as writing_in, loaded_stopped as stopped_in, records_at as records_in, channel_by as channel_of_kind, channel_at as channel_in, channels_at};
ghost use Rattle.cbm_chain.specs.Reading.{IsSettled};
ghost use Rattle.cbm_channel.specs.Standing.{FitsTracks};

use crate::channel::Channel;
use crate::on_record::OnRecord;
use cbm_listing::Listing;
use cbm_medium::{Address, Geometry, Link};
use cbm_saved::{text_at, two_at};
use cbm_volume::{ChainReader, ChainWriter, FileWriter};

/// The geometry of so many tracks, which may not be more than the disk's.
fn tracks_of(most: u8, tracks: u8) -> Option<Geometry>
    ensures value { result ≡ tracks_in most tracks }
    ensures few { IfSome result (λ g. g ≤ most) }
{
    if tracks > most {
        return None;
    }
    match tracks {
        35 => Some(Geometry::of_35()),
        40 => Some(Geometry::of_40()),
        _ => None,
    }
}

/// The sector with these two numbers, if a disk has it.
fn address_of(track: u8, sector: u8) -> Option<Address>
    ensures { result ≡ loaded_place track sector }
{
    Address::new(track, sector)
}

/// A listing of these bytes, of which so many were taken.
fn listing_of(bytes: &[u8], taken: u16) -> Option<Listing>
    ensures { result ≡ listing_with bytes.now taken }
{
    Listing::resumed(bytes, taken)
}

/// A listing, after its kind.
fn listing_at(bytes: &[u8]) -> Option<(Channel, &[u8])>
    ensures value { option_map (λ x. (x.0, x.1.now)) result ≡ listing_in bytes.now }
    ensures fits { (most : ℕ) → IfSome result (λ x. FitsTracks most x.0) }
{
    let (taken, rest) = two_at(bytes)?;
    let (text, rest) = text_at(rest)?;
    let listing = listing_of(text, taken)?;
    Some((Channel::Listing(listing), rest))
}

/// A reader of these parts.
fn reader_of(geometry: Geometry, bytes: &[u8], next: Link, left: u16) -> Option<ChainReader>
    ensures value { result ≡ reading_of geometry bytes.now next left }
    ensures settled { IfSome result (λ r. (r.tracks ≡ geometry) × IsSettled r) }
{
    ChainReader::resumed(geometry, bytes, next, left)
}

/// A file that is read, after its kind.
fn file_at(most: u8, bytes: &[u8]) -> Option<(Channel, &[u8])>
    ensures value { option_map (λ x. (x.0, x.1.now)) result ≡ file_in most bytes.now }
    ensures fits { IfSome result (λ x. FitsTracks most x.0) }
{
    let [slot, tracks, track, sector, rest @ ..] = bytes else {
        return None;
    };
    let geometry = tracks_of(most, *tracks)?;
    let (left, rest) = two_at(rest)?;
    let (text, rest) = text_at(rest)?;
    let reader = reader_of(geometry, text, Link::new(*track, *sector), left)?;
    Some((Channel::File(*slot, reader), rest))
}

/// The writer of a chain of these parts.
fn chain_of(
    geometry: Geometry,
    first: Option<Address>,
    current: Option<Address>,
    count: u16,
    waiting: &[u8],
) -> Option<ChainWriter>
    ensures value { result ≡ chain_with geometry first current count waiting.now }
    ensures tracks { IfSome result (λ s. s.tracks ≡ geometry) }
{
    ChainWriter::resumed(geometry, first, current, count, waiting)
}

/// The writer of a chain.
fn chain_at(most: u8, bytes: &[u8]) -> Option<(ChainWriter, &[u8])>
    ensures value { option_map (λ x. (x.0, x.1.now)) result ≡ chain_in most bytes.now }
    ensures fits { IfSome result (λ x. x.0.tracks ≤ most) }
{
    let [tracks, a, b, c, d, rest @ ..] = bytes else {
        return None;
    };
    let geometry = tracks_of(most, *tracks)?;
    let (count, rest) = two_at(rest)?;
    let (text, rest) = text_at(rest)?;
    let first = address_of(*a, *b);
    let current = address_of(*c, *d);
    let chain = chain_of(geometry, first, current, count, text)?;
    Some((chain, rest))
}

/// A file that is written, after its kind.
fn writing_at(most: u8, bytes: &[u8]) -> Option<(Channel, &[u8])>
    ensures value { option_map (λ x. (x.0, x.1.now)) result ≡ writing_in most bytes.now }
    ensures fits { IfSome result (λ x. FitsTracks most x.0) }
{
    let [slot, replaces, full, rest @ ..] = bytes else {
        return None;
    };
    let (chain, rest) = chain_at(most, rest)?;
    let writer = FileWriter::resumed(*slot, *replaces != 0, chain);
    Some((Channel::Writing(writer, *full != 0), rest))
}

/// A file whose writing the medium refused, after its kind.
fn stopped_at(bytes: &[u8]) -> Option<(Channel, &[u8])>
    ensures value { option_map (λ x. (x.0, x.1.now)) result ≡ stopped_in bytes.now }
    ensures fits { (most : ℕ) → IfSome result (λ x. FitsTracks most x.0) }
{
    let (slot, rest) = bytes.split_first()?;
    Some((Channel::Stopped(*slot), rest))
}

/// An open relative file, after its kind.
fn records_at(bytes: &[u8]) -> Option<(Channel, &[u8])>
    ensures value { option_map (λ x. (x.0, x.1.now)) result ≡ records_in bytes.now }
    ensures fits { (most : ℕ) → IfSome result (λ x. FitsTracks most x.0) }
{
    let (placed, rest) = OnRecord::at(bytes)?;
    Some((Channel::Records(placed), rest))
}

/// A channel by its kind.
fn channel_by(most: u8, kind: u8, rest: &[u8]) -> Option<(Channel, &[u8])>
    ensures value { option_map (λ x. (x.0, x.1.now)) result ≡ channel_of_kind most kind rest.now }
    ensures fits { IfSome result (λ x. FitsTracks most x.0) }
{
    match kind {
        0 => Some((Channel::Closed, rest)),
        1 => listing_at(rest),
        2 => file_at(most, rest),
        3 => writing_at(most, rest),
        4 => stopped_at(rest),
        5 => records_at(rest),
        _ => None,
    }
}

/// The channel that begins some bytes, over a disk of this many tracks, and what follows it; None if it is none.
fn channel_at(most: u8, bytes: &[u8]) -> Option<(Channel, &[u8])>
    ensures value { option_map (λ x. (x.0, x.1.now)) result ≡ channel_in most bytes.now }
    ensures fits { IfSome result (λ x. FitsTracks most x.0) }
{
    let (kind, rest) = bytes.split_first()?;
    channel_by(most, *kind, rest)
}

/// This channel becomes the one that begins some bytes; what follows it, or None if it is none.
// (In its caller's frame the channel would take stack once for each channel that is still to be read.)
#[inline(never)]
fn load_one<'a>(channel: &mut Channel, most: u8, bytes: &'a [u8]) -> Option<&'a [u8]>
    ensures value { option_map (λ rest. (channel.new, rest.now)) result ≡ channel_in most bytes.now }
    ensures fits { IsSome result → FitsTracks most channel.new }
{
    let (loaded, rest) = channel_at(most, bytes)?;
    *channel = loaded;
    Some(rest)
}

/// These channels become those that begin some bytes; what follows them, or None if they are none.
pub(crate) fn load_all<'a>(channels: &mut [Channel], most: u8, bytes: &'a [u8]) -> Option<&'a [u8]>
    ensures value { MatchOption result (channels_at most (length channels.old) bytes.now ≡ None)
        (λ rest. channels_at most (length channels.old) bytes.now ≡ Some (channels.new, rest.now)) }
    ensures count { length channels.new ≡ length channels.old }
    ensures fits { IsSome result → All (FitsTracks most) channels.new }
{
    let Some((first, others)) = channels.split_first_mut() else {
        return Some(bytes);
    };
    let rest = load_one(first, most, bytes)?;
    load_all(others, most, rest)
}
