//! Why a trace isn't judged.

use bus_judge::NotABus;
use bus_traces::TraceFault;
use bus_wires::Unread;
use std::alloc::AllocError;
use thiserror::Error;

/// Why a trace isn't judged.
#[derive(Clone, Copy, Debug, PartialEq, Eq, Drop, Error)]
pub enum ReportFault {
    /// The drives are no bus.
    #[error("{0}")]
    Drives(NotABus),
    /// The trace can't be read.
    #[error("{0}")]
    Trace(TraceFault),
    /// A change of the wires can't be read.
    #[error("{0}")]
    Wires(Unread),
    /// No line changes in it, so nothing was captured.
    #[error("no line changes in the trace: nothing was captured")]
    Empty,
    /// A drive's reactions vary, and the trace has the wires alone.
    #[error("a range of reactions needs a trace of the parties' own lines: the wires alone don't say whose a change is")]
    Range,
    /// Memory ran out.
    #[error("no memory")]
    NoMemory,
    /// What is said can't be written.
    #[error("writing failed")]
    Writing,
}

impl From<NotABus> for ReportFault {
    fn from(fault: NotABus) -> ReportFault {
        ReportFault::Drives(fault)
    }
}

impl From<TraceFault> for ReportFault {
    fn from(fault: TraceFault) -> ReportFault {
        ReportFault::Trace(fault)
    }
}

impl From<Unread> for ReportFault {
    fn from(fault: Unread) -> ReportFault {
        ReportFault::Wires(fault)
    }
}

impl From<AllocError> for ReportFault {
    fn from(_error: AllocError) -> ReportFault {
        ReportFault::NoMemory
    }
}
