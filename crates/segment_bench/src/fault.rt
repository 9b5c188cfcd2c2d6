use lr_base::{NoMemory, ReadFault};
use std::alloc::AllocError;
use std::io;
use thiserror::Error;

/// Why nothing was measured.
#[derive(Clone, Copy, Debug, PartialEq, Eq, Error)]
pub enum Fault {
    #[error("wanted: SHEET TEXT SEGMENTS TURNS")]
    Words,
    #[error("a file can't be read")]
    Unread,
    #[error("the sheet is refused")]
    Sheet,
    #[error("the text is too long, or no sentence")]
    Text,
    #[error("no memory")]
    NoMemory,
    #[error("the clock can't be read, or nothing be written")]
    Outside,
}

impl From<NoMemory> for Fault {
    fn from(_error: NoMemory) -> Fault {
        Fault::NoMemory
    }
}

impl From<AllocError> for Fault {
    fn from(_error: AllocError) -> Fault {
        Fault::NoMemory
    }
}

impl From<ReadFault> for Fault {
    fn from(fault: ReadFault) -> Fault {
        match fault {
            ReadFault::Failed => Fault::Unread,
            ReadFault::NoMemory => Fault::NoMemory,
        }
    }
}

impl From<io::Error> for Fault {
    fn from(_error: io::Error) -> Fault {
        Fault::Outside
    }
}
