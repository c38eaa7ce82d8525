//! Why a conversation or a frame breaks off.
ghost use Rattle.std.specs.Prelude.{◌≡◌};
ghost use Rattle.far_stream.specs.declared.fault.PayloadFault.TheVariants.{CutOff};
ghost use Rattle.far_stream.specs.Faults.{stream_fault_number, of_cut};

use far_store::StoreFault;
use thiserror::Error;

/// Why serving a stream ended before its input did.
#[derive(Clone, Copy, Drop, Debug, PartialEq, Eq, Error)]
pub enum StreamFault {
    /// The stream failed.
    #[error("the stream failed")]
    Io = 1,
    /// Bytes are damaged: the client's side alone finds that.
    #[error("damaged bytes")]
    Damaged = 2,
    /// What came is no request.
    #[error("protocol broken")]
    Protocol = 3,
}

impl StreamFault {
    /// The fault's number.
    pub fn number(self) -> u8
        ensures { result ≡ stream_fault_number self }
    {
        self as u8
    }
}

/// Why less of a frame came than was due.
#[derive(Clone, Copy, Drop, Debug, PartialEq, Eq)]
pub(crate) enum Cut {
    /// The reader failed.
    Failed,
    /// The input ended.
    Ended,
}

/// Why a payload can't be had.
#[derive(Clone, Copy, Drop, Debug, PartialEq, Eq)]
pub(crate) enum PayloadFault {
    /// It didn't come.
    CutOff(Cut),
    /// Out of memory: it was read and dropped.
    NoMemory,
}

impl From<Cut> for PayloadFault {
    ghost from_gives = { λ cut fault. fault ≡ CutOff cut };

    fn from(cut: Cut) -> PayloadFault {
        PayloadFault::CutOff(cut)
    }
}

impl From<Cut> for StreamFault {
    ghost from_gives = { λ cut fault. fault ≡ of_cut cut };

    fn from(cut: Cut) -> StreamFault {
        match cut {
            Cut::Failed => StreamFault::Io,
            Cut::Ended => StreamFault::Protocol,
        }
    }
}
