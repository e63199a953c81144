//! How far a talk has come.

ghost use Rattle.std.specs.Prelude.{◌≡◌, ◌+◌, ◌<◌, ◌≤◌, ◌^◌, None};
ghost use Rattle.bus_replies.specs.Replies.{IsReplyInRange, IsReplyInTime};

use crate::fault::ReplyRefusal;
use crate::request::ReplyRequest;
use cbm_iec::Change;

/// How far a talk has come, in microseconds.
#[derive(Clone, Copy, Debug, PartialEq, Eq, Drop)]
pub(crate) struct Clock {
    // The moment that the host named last.
    moment: u64,
    // The first moment at which it may change a line.
    from: u64,
}

impl Clock {
    /// Before the first line.
    pub(crate) fn new() -> Clock
        ensures moment { result.moment ≡ 0 }
        ensures from { result.from ≡ 0 }
    {
        Clock { moment: 0, from: 0 }
    }

    /// The moment that the host named last.
    pub(crate) fn moment(&self) -> u64
        ensures { result ≡ self.now.moment }
    {
        self.moment
    }

    /// The host changed a line at this moment, and may change others at it.
    pub(crate) fn changed(&mut self, moment: u64)
        ensures moment { self.new.moment ≡ moment }
        ensures from { self.new.from ≡ moment }
    {
        self.moment = moment;
        self.from = moment;
    }

    /// All came that was due up to this moment.
    pub(crate) fn played(&mut self, upto: u64)
        requires { upto < 2 ^ 63 }
        ensures moment { self.new.moment ≡ upto }
        ensures from { self.new.from ≡ upto + 1 }
    {
        self.moment = upto;
        self.from = upto + 1;
    }

    /// Why a request can't be carried out now, if it can't: a change that comes too early, or a moment that is over.
    pub(crate) fn refuses(&self, request: ReplyRequest) -> Option<ReplyRefusal>
        ensures { result ≡ None → IsReplyInRange request → IsReplyInTime self.now.moment self.now.from request }
    {
        match request {
            ReplyRequest::Change(Change { moment, .. }) if moment < self.from => {
                Some(ReplyRefusal::Early(self.from))
            }
            ReplyRequest::Until(moment) | ReplyRequest::End(moment) if moment < self.moment => {
                Some(ReplyRefusal::Over(self.moment))
            }
            _ => None,
        }
    }
}
