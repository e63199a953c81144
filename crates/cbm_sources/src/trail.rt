//! A way along a chain that comes to no sector twice.
ghost use Rattle.std.specs.Prelude.{ℕ, List, Option, ◌≡◌, ◌≢◌, ◌≤◌, ◌<◌, ◌+◌, ◌-◌, [], ◌∷◌, ◌++◌, IfOk, IfErr, OnOk, Some, None};
ghost use Rattle.cbm_medium.specs.Place.{Place};
ghost use Rattle.cbm_medium.specs.Content.{Content};
ghost use Rattle.cbm_medium.specs.Links.{bytes_at, link, with_block};
ghost use Rattle.cbm_medium.specs.declared.fault.Trouble.{Trouble};
ghost use Rattle.cbm_sources.specs.Sectors.{image_content};
ghost use Rattle.cbm_sources.specs.Chains.{came_already, met_once, Way, EntersNext, IsToldOf};

use crate::disk::Disk;
use cbm_medium::codes::ENDLESS_CHAIN;
use cbm_medium::{Link, Trouble};
use std::alloc::{AllocError, Global};
use std::marker::Model;

/// A way along a chain.
#[derive(Drop)]
pub(crate) struct Trail {
    // The sectors that came.
    blocks: Vec<Link>,
    next: Link,
    // How many sectors are left to the chain.
    left: u16,
    // Why the chain broke off, once no sector came.
    trouble: Option<Trouble>,
}

impl Model for Trail {
    ghost use Rattle.cbm_sources.specs.Chains.{Way};

    ghost Value = { Way };

    ghost view = { λ t. record { blocks = t.blocks.items; next = t.next; left = t.left; trouble = t.trouble } };
}

/// Whether a sector is one of these.
fn is_among(at: Link, blocks: &[Link]) -> bool
    ensures { result ≡ came_already at blocks.now }
{
    blocks.iter().any(|block| at.track() == block.track() && at.sector() == block.sector())
}

/// The bytes of the next sector of a chain: 71 if it came already or is one too many, else what the disk answers.
fn enter(disk: &Disk, blocks: &[Link], left: u16, at: Link) -> Result<[u8; 256], Trouble>
    requires { at.track ≢ 0 }
    ensures ok { let content = image_content disk.now in IfOk result (λ bytes.
        met_once content left blocks.now at ≡ with_block at (met_once content (left - 1) (blocks.now ++ at ∷ []) (link bytes))) }
    ensures read { IfOk result (λ bytes. bytes_at (image_content disk.now) at ≡ bytes) }
    ensures left { OnOk result (0 < left) }
    ensures err { IfErr result (λ t. met_once (image_content disk.now) left blocks.now at ≡ (record { blocks = []; trouble = Some t })) }
{
    let bytes = disk.read(at)?;
    if left == 0 || is_among(at, blocks) {
        return Err(at.trouble(ENDLESS_CHAIN));
    }
    Ok(bytes)
}

impl Trail {
    /// Stands before the first sector of a chain of at most this many.
    pub(crate) fn begin(alloc: Global, left: u16, first: Link) -> Trail
        ensures { result ≡ (record { blocks = []; next = first; left = left; trouble = None }) }
    {
        Trail {
            blocks: Vec::new(alloc),
            next: first,
            left,
            trouble: None,
        }
    }

    /// Why the chain broke off, once no sector came.
    pub(crate) fn trouble(&self) -> Option<Trouble>
        ensures { result ≡ self.now.trouble }
    {
        self.trouble
    }

    /// The next sector; None where the chain has ended, or is broken off. The one error is want of memory.
    pub(crate) fn next(&mut self, disk: &Disk) -> Result<Option<[u8; 256]>, AllocError>
        ensures { EntersNext (image_content disk.now) self.old self.new result }
    {
        self.trouble = None;
        if self.next.is_end() {
            return Ok(None);
        }
        match enter(disk, self.blocks.as_slice(), self.left, self.next) {
            Ok(bytes) => {
                self.blocks.push(self.next).map_err(AllocError::from)?;
                self.next = Link::of(&bytes);
                self.left -= 1;
                Ok(Some(bytes))
            }
            Err(trouble) => {
                self.trouble = Some(trouble);
                Ok(None)
            }
        }
    }
}

/// What is met of a chain is what it is: its sectors, each once, up to its end or to the trouble that breaks it off, and nothing
/// else is.
pub fn chains_are_followed()
    ensures told { (content : Content) (most : ℕ) (a : Place) →
        let m = met_once content most [] a in IsToldOf content most a m.blocks m.trouble }
    ensures only { (content : Content) (most : ℕ) (a : Place) (blocks : List Place) (trouble : Option Trouble) →
        IsToldOf content most a blocks trouble → met_once content most [] a ≡ (record { blocks = blocks; trouble = trouble }) }
{}
