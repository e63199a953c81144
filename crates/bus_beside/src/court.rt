//! The tidy host's trace before the judge.

ghost use Rattle.std.specs.Prelude.{◌≡◌, ◌∷◌, ◌++◌, [], List, IfOk, OnOk};
ghost use Rattle.cbm_iec.specs.declared.event.Event.{Event as ThisEvent};
ghost use Rattle.cbm_iec.specs.declared.party.Party.{Party as ThisParty};
ghost use Rattle.cbm_session.specs.Sessions.{IsBus};
ghost use Rattle.cbm_session.specs.Timing.{HostKeeps};
ghost use Rattle.bus_beside.specs.Courses.{host_events};
ghost use Rattle.bus_beside.specs.Courts.{HasJudged};

use bus_judge::{Breach, Judge, NotABus};
use cbm_iec::{Change, Event, Party, Who};
use cbm_session::laws::keeps_timing;

/// A judge, and whether it has seen an event.
#[derive(Drop)]
pub(crate) struct Court {
    judge: Judge,
    is_begun: bool,
}

impl Court {
    /// Before a trace of these drives.
    pub(crate) fn new(parties: &[Party]) -> Result<Court, NotABus>
        ensures { IfOk result (λ c. HasJudged parties.now c []) }
    {
        let judge = Judge::new(parties)?;
        Ok(Court {
            judge,
            is_begun: false,
        })
    }

    /// The next event of the trace; or what broke the session.
    pub(crate) fn see(&mut self, event: Event) -> Result<(), Breach>
        ensures { (bs : List ThisParty) (es : List ThisEvent) → HasJudged bs self.old es → OnOk result (HasJudged bs self.new (es ++ event ∷ [])) }
    {
        self.judge.see(event)?;
        self.is_begun = true;
        Ok(())
    }

    /// The host's next changes.
    pub(crate) fn see_all(&mut self, changes: &[Change]) -> Result<(), Breach>
        ensures { (bs : List ThisParty) (es : List ThisEvent) → HasJudged bs self.old es → OnOk result (HasJudged bs self.new (es ++ host_events changes.now)) }
    {
        let Some((change, more)) = changes.split_first() else {
            return Ok(());
        };
        self.see(Event {
            who: Who::Host,
            change: *change,
        })?;
        self.see_all(more)
    }

    /// The trace ends at a moment. Answers whether the host has kept the timing up to there.
    pub(crate) fn end(&mut self, moment: u64) -> Result<(), Breach>
        ensures { (bs : List ThisParty) (es : List ThisEvent) → IsBus bs → HasJudged bs self.old es → OnOk result (HostKeeps bs es moment) }
    {
        if self.is_begun {
            return self.judge.end(moment);
        }
        keeps_timing();
        Ok(())
    }
}
