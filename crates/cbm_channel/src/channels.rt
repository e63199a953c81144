//! The channels of a drive, in memory of their own.
ghost use Rattle.std.specs.Prelude.{◌≡◌, IsSome, option_map, replicate, length};
ghost use Rattle.std.specs.List.{All};
ghost use Rattle.cbm_channel.specs.declared.channel.Channel.TheVariants.{Closed};
ghost use Rattle.cbm_channel.specs.Loaded.{channels_at};
ghost use Rattle.cbm_channel.specs.Standing.{FitsTracks};

use crate::channel::Channel;
use crate::channel::loading::load_all;
use std::alloc::{AllocError, Global};
use std::marker::Model;

/// How many channels a drive has but the one of commands.
const COUNT: usize = 15;

/// The channels 0 to 14 of a drive, all closed, in memory of their own. A drive is made with them, so nothing that it does later wants memory.
#[derive(Drop)]
pub struct Channels {
    closed: Vec<Channel>,
}

impl Model for Channels {
    ghost use Rattle.std.specs.Prelude.{◌≡◌, List, replicate};
    ghost use Rattle.cbm_channel.specs.declared.channel.Channel.{Channel};
    ghost use Rattle.cbm_channel.specs.declared.channel.Channel.TheVariants.{Closed};

    ghost Value = { List Channel };

    ghost view = { λ c. c.closed.items };

    ghost invariant = { λ c. c.closed.items ≡ replicate 15 Closed };
}

/// Closes each of these channels; what was being written on one isn't finished.
fn close_each(channels: &mut [Channel])
    ensures { channels.new ≡ replicate (length channels.old) Closed }
{
    if let Some((first, others)) = channels.split_first_mut() {
        *first = Channel::Closed;
        close_each(others);
    }
}

/// Closes all channels; what was being written on one isn't finished.
pub(crate) fn close_all(channels: &mut Vec<Channel>)
    ensures { channels.new.items ≡ replicate (length channels.old.items) Closed }
{
    close_each(channels.as_mut_slice());
}

/// The channels become those that begin some bytes, over a disk of this many tracks; what follows them, or None if they are none.
fn load_into<'a>(channels: &mut Vec<Channel>, most: u8, bytes: &'a [u8]) -> Option<&'a [u8]>
    ensures value { option_map (λ x. (channels.new.items, x.now)) result ≡ channels_at most (length channels.old.items) bytes.now }
    ensures count { length channels.new.items ≡ length channels.old.items }
    ensures fits { IsSome result → All (FitsTracks most) channels.new.items }
{
    load_all(channels.as_mut_slice(), most, bytes)
}

impl Channels {
    ghost use Rattle.std.specs.Prelude.{◌≡◌, IfOk, IfSome, option_map, replicate};
    ghost use Rattle.cbm_channel.specs.declared.channel.Channel.TheVariants.{Closed};
    ghost use Rattle.cbm_channel.specs.Loaded.{channels_at};
    ghost use Rattle.cbm_channel.specs.Standing.{AreFit};

    /// Makes them. The one error is want of memory.
    pub fn new(alloc: Global) -> Result<Channels, AllocError>
        ensures { IfOk result (λ c. c ≡ replicate 15 Closed) }
    {
        let mut closed = Vec::with_capacity(alloc, COUNT)?;
        for _ in 0..COUNT {
            closed.push(Channel::Closed)?;
        }
        Ok(Channels { closed })
    }

    /// The channels that begin some bytes, over a disk of this many tracks, and what follows them; None if they are none.
    pub(crate) fn loaded(self, most: u8, bytes: &[u8]) -> Option<(Vec<Channel>, &[u8])>
        ensures value { option_map (λ x. (x.0.items, x.1.now)) result ≡ channels_at most 15 bytes.now }
        ensures fits { IfSome result (λ x. AreFit most x.0.items) }
    {
        let mut channels = self.into_items();
        let rest = load_into(&mut channels, most, bytes)?;
        Some((channels, rest))
    }

    /// The channels themselves.
    pub(crate) fn into_items(self) -> Vec<Channel>
        ensures { result.items ≡ replicate 15 Closed }
    {
        let Channels { closed } = self;
        closed
    }
}
