ghost use Rattle.std.specs.Prelude.{◌≡◌, ◌≤◌, Some, true, OnOk, IfErr, IfSome};
ghost use Rattle.cbm_medium.specs.Place.{directory_head};
ghost use Rattle.cbm_medium.specs.Content.{written, blank, format_refusal};
ghost use Rattle.cbm_medium.specs.Countdown.{is_due, passed, count_failed, seen_by, CountsDown};
ghost use Rattle.cbm_medium.specs.Seen.{with_content, formatted_as, write_refusal, IsRefused};

use crate::address::Address;
use crate::codes::{WRITE_ERROR, WRITE_PROTECT_ON};
use crate::fault::{Fault, Trouble, is_of_header};
use crate::medium::Medium;
use crate::steady::Steady;
use std::marker::Model;

/// A medium over another one, which lets some writes pass and then refuses one, or each from then on, with 25.
///
/// It models a disk that fails, or a stop in the middle of a call. A `format` counts as one write. What
/// protection or the content refuses comes first and isn't counted. At the greatest count of failures every write
/// passes.
#[derive(Drop)]
pub struct Failing<M> {
    inner: M,
    passes: Option<u32>,
    all: bool,
    failures: u64,
    refused: Option<Trouble>,
}

impl<M> Model for Failing<M> {
    ghost use Rattle.std.specs.Prelude.{◌≡◌};
    ghost use Rattle.cbm_medium.specs.Countdown.{Watched};

    ghost Value = { Watched M };

    ghost view = { λ f. record {
      inner = f.inner;
      countdown = record { passes = f.passes; all = f.all; failures = f.failures; refused = f.refused };
    } };
}

impl<M: Steady> Failing<M> {
    /// A medium that passes `after` writes and refuses the next one, or with `all` every later one.
    pub fn new(inner: M, after: u32, all: bool) -> Failing<M>
        ensures { result ≡ (record {
          inner = inner;
          countdown = record { passes = Some after; all = all; failures = 0; refused = None };
        }) }
    {
        Failing {
            inner,
            passes: Some(after),
            all,
            failures: 0,
            refused: None,
        }
    }

    /// The medium below.
    pub fn into_inner(self) -> M
        ensures { result ≡ self.inner }
    {
        let Failing {
            inner,
            passes: _,
            all: _,
            failures: _,
            refused: _,
        } = self;
        inner
    }

    fn is_due(&self) -> bool
        ensures { result ≡ is_due self.now.countdown }
    {
        self.failures < u64::MAX && self.passes == Some(0)
    }

    fn pass(&mut self)
        ensures { self.new ≡ record self.old { countdown = passed self.old.countdown } }
    {
        self.passes = match self.passes {
            Some(left) => Some(left.saturating_sub(1)),
            None => None,
        };
    }

    /// Counts a refusal, and answers it.
    fn fail(&mut self, at: Address) -> Fault
        requires { is_due self.old.countdown ≡ true }
        ensures failed { self.new ≡ record self.old { countdown = count_failed at self.old.countdown } }
        ensures fault { result ≡ record { code = 25; at = at } }
    {
        if !self.all {
            self.passes = None;
        }
        self.failures += 1;
        self.refused = Some(Trouble {
            code: WRITE_ERROR,
            track: at.track(),
            sector: at.sector(),
        });
        Fault {
            code: WRITE_ERROR,
            at,
        }
    }
}

impl<M: Steady> Medium for Failing<M> {
    ghost seen = { seen_by M.seen };

    ghost codes = { λ f p. M.codes f.inner p };

    ghost outer_headers = { λ f p. M.outer_headers f.inner p };

    fn read(&self, at: Address) -> Result<[u8; 256], Fault> {
        self.inner.read(at)
    }

    fn write(&mut self, at: Address, bytes: &[u8; 256]) -> Result<(), Fault>
        requires { at.track ≤ (M.seen self.old.inner).tracks }
        ensures ok { let old = seen_by M.seen self.old in
            OnOk result (seen_by M.seen self.new ≡ with_content (written old.content at bytes.now) old) }
        ensures refused { IfSome (write_refusal (M.seen self.old.inner) at)
            (λ code. result ≡ Err (record { code = code; at = at })) }
        ensures err { let old = seen_by M.seen self.old in IfErr result (λ fault. (fault.at ≡ at)
            × IsRefused (write_refusal old at) fault old (seen_by M.seen self.new)) }
        ensures countdown { CountsDown (write_refusal (M.seen self.old.inner) at) at
            self.old.countdown self.new.countdown result }
    {
        if !self.is_due() {
            self.inner.write(at, bytes)?;
            self.pass();
            return Ok(());
        }
        if self.inner.protected() {
            return Err(Fault {
                code: WRITE_PROTECT_ON,
                at,
            });
        }
        if let Err(fault) = self.inner.read(at)
            && is_of_header(fault.code)
        {
            return Err(fault);
        }
        Err(self.fail(at))
    }

    fn format(&mut self, id: [u8; 2]) -> Result<(), Fault>
        ensures ok { OnOk result (seen_by M.seen self.new ≡ formatted_as id (with_content blank (seen_by M.seen self.old))) }
        ensures refused { IfSome (format_refusal (M.seen self.old.inner).protected)
            (λ code. result ≡ Err (record { code = code; at = directory_head })) }
        ensures err { let old = seen_by M.seen self.old in IfErr result (λ fault. (fault.at ≡ directory_head)
            × IsRefused (format_refusal old.protected) fault old (seen_by M.seen self.new)) }
        ensures countdown { CountsDown (format_refusal (M.seen self.old.inner).protected) directory_head
            self.old.countdown self.new.countdown result }
    {
        if self.inner.protected() || !self.is_due() {
            self.inner.format(id)?;
            self.pass();
            return Ok(());
        }
        Err(self.fail(Address::of_map()))
    }

    fn tracks(&self) -> u8 {
        self.inner.tracks()
    }

    fn protected(&self) -> bool {
        self.inner.protected()
    }

    fn failures(&self) -> u64 {
        self.failures
    }
}
