use crate::dos::Dos;
use crate::sought::Sought;
use cbm_command::Name;
use cbm_file::FileType;
use cbm_machine::{Code, Status};
use cbm_volume::{Entry, Medium};

/// A file that was found: the number of its slot, and its entry.
#[derive(Drop)]
pub struct Found {
    pub(crate) slot: u8,
    pub(crate) entry: Entry,
}

impl<M: Medium> Dos<M> {
    ghost use Rattle.std.specs.Prelude.{IfOk, IfErr};
    ghost use Rattle.cbm_channel.specs.Grounds.{HasGround, IsNotOk};
    ghost use Rattle.cbm_machine.specs.Machines.{Machine};
    ghost use Rattle.cbm_machine.specs.Finding.{found};
    ghost use Rattle.cbm_channel.specs.Standing.{Stands};
    ghost use Rattle.cbm_channel.specs.Planned.{FoundAs};
    ghost use Rattle.cbm_channel.specs.Meant.{IsFirstOf};

    /// The first file whose name matches and whose type is the one asked for, if one is. Errors: 62 no such name; 64
    /// the name is there, with other types alone; or the fault of the directory.
    pub(crate) fn found(&self, pattern: &Name, kind: Option<FileType>) -> Result<Found, Status>
        ensures ground { IfErr result (HasGround M.seen self.now.medium) }
        ensures denied { IfErr result IsNotOk }
        ensures first { IfOk result (λ f. IsFirstOf (M.seen self.now.medium) pattern.now kind f.slot f.entry) }
        ensures found { (m : Machine) → Stands M.seen self.now m →
            FoundAs (M.seen self.now.medium).tracks (M.seen self.now.medium).content m.disk
            (found m.disk pattern.now kind) result }
    {
        if let Some((slot, entry)) = self.volume().find(&Sought { pattern, kind })? {
            return Ok(Found { slot, entry });
        }
        let any = Sought {
            pattern,
            kind: None,
        };
        if self.volume().find(&any)?.is_some() {
            return Err(Status::plain(Code::WrongType));
        }
        Err(Status::plain(Code::FileNotFound))
    }
}
