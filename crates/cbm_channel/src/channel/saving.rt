// A channel as bytes.
ghost use Rattle.std.specs.Prelude.{◌≡◌, ◌≤◌, ◌++◌, ℕ, OnOk, IfSome};
ghost use Rattle.std.specs.List.{All};
ghost use Rattle.cbm_channel.specs.Saved.{flag_byte as flag_of, saved_chain, saved_channels, saved_file, saved_listing, saved_place, saved_writing, MayGoOn, MayStand};
ghost use Rattle.cbm_medium.specs.Place.{IsOnDisk};
ghost use Rattle.cbm_channel.specs.Standing.{FitsTracks};
ghost use Rattle.cbm_channel.specs.declared.channel.Channel.TheVariants as code;

use crate::channel::Channel;
use cbm_listing::Listing;
use cbm_medium::Address;
use cbm_saved::put_text;
use cbm_volume::{ChainReader, ChainWriter, FileWriter};
use std::alloc::AllocError;

/// 1 for yes, 0 for no.
fn flag(is: bool) -> u8
    ensures { result ≡ flag_of is }
{
    if is { 1 } else { 0 }
}

/// The two numbers of a place; zeros if there is none.
fn saved_place(place: Option<Address>) -> [u8; 2]
    ensures value { result ≡ saved_place place }
    ensures on_disk { IfSome place IsOnDisk }
{
    match place {
        Some(at) => [at.track(), at.sector()],
        None => [0, 0],
    }
}

/// Adds a listing.
fn save_listing(out: &mut Vec<u8>, listing: &Listing) -> Result<(), AllocError>
    ensures saved { OnOk result (out.new.items ≡ out.old.items ++ saved_listing listing.now) }
    ensures again { (most : ℕ) → MayStand most (code.Listing listing.now) }
{
    let taken = listing.taken();
    let bytes = listing.bytes();
    out.extend_from_slice(&[1, (taken % 256) as u8, (taken / 256) as u8])?;
    put_text(out, bytes)
}

/// Adds a file that is read.
fn save_file(out: &mut Vec<u8>, slot: u8, reader: &ChainReader) -> Result<(), AllocError>
    ensures saved { OnOk result (out.new.items ≡ out.old.items ++ saved_file slot reader.now) }
    ensures again { (most : ℕ) → reader.now.tracks ≤ most → MayStand most (code.File slot reader.now) }
{
    let tracks = reader.geometry().tracks();
    let next = reader.next_link();
    let left = reader.sectors_left();
    let bytes = reader.read_ahead();
    out.extend_from_slice(&[
        2,
        slot,
        tracks,
        next.track(),
        next.sector(),
        (left % 256) as u8,
        (left / 256) as u8,
    ])?;
    put_text(out, bytes.as_slice())
}

/// Adds the writer of a chain.
fn save_chain(out: &mut Vec<u8>, chain: &ChainWriter) -> Result<(), AllocError>
    ensures saved { OnOk result (out.new.items ≡ out.old.items ++ saved_chain chain.now) }
    ensures again { (most : ℕ) → chain.now.tracks ≤ most → OnOk result (MayGoOn most chain.now) }
{
    let count = chain.count();
    out.extend_from_slice(&[chain.geometry().tracks()])?;
    out.extend_from_slice(&saved_place(chain.first()))?;
    out.extend_from_slice(&saved_place(chain.current()))?;
    out.extend_from_slice(&[(count % 256) as u8, (count / 256) as u8])?;
    put_text(out, chain.waiting())
}

/// Adds a file that is written, and whether the disk was full.
fn save_writing(out: &mut Vec<u8>, writer: &FileWriter, full: bool) -> Result<(), AllocError>
    ensures saved { OnOk result (out.new.items ≡ out.old.items ++ saved_writing writer.now full) }
    ensures again { (most : ℕ) → writer.now.chain.tracks ≤ most → OnOk result (MayGoOn most writer.now.chain) }
{
    out.extend_from_slice(&[3, writer.slot(), flag(writer.replaces()), flag(full)])?;
    save_chain(out, writer.chain())
}

/// Adds all channels, one after another.
pub(crate) fn save_all(out: &mut Vec<u8>, channels: &[Channel]) -> Result<(), AllocError>
    ensures saved { OnOk result (out.new.items ≡ out.old.items ++ saved_channels channels.now) }
    ensures again { (most : ℕ) → All (FitsTracks most) channels.now → OnOk result (All (MayStand most) channels.now) }
{
    let Some((first, rest)) = channels.split_first() else {
        return Ok(());
    };
    first.save(out)?;
    save_all(out, rest)
}

impl Channel {
    ghost use Rattle.std.specs.Prelude.{◌≡◌, ◌++◌, ℕ, OnOk};
    ghost use Rattle.cbm_channel.specs.Saved.{saved_channel, MayStand};
    ghost use Rattle.cbm_channel.specs.Standing.{FitsTracks};

    /// Adds this channel.
    fn save(&self, out: &mut Vec<u8>) -> Result<(), AllocError>
        ensures saved { OnOk result (out.new.items ≡ out.old.items ++ saved_channel self.now) }
        ensures again { (most : ℕ) → FitsTracks most self.now → OnOk result (MayStand most self.now) }
    {
        match self {
            Channel::Closed => out.extend_from_slice(&[0]),
            Channel::Listing(listing) => save_listing(out, listing),
            Channel::File(slot, reader) => save_file(out, *slot, reader),
            Channel::Writing(writer, full) => save_writing(out, writer, *full),
            Channel::Stopped(slot) => out.extend_from_slice(&[4, *slot]),
            Channel::Records(on) => on.save(out),
        }
    }
}
