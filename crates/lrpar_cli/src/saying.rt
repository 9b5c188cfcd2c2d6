ghost use Rattle.std.specs.Prelude.{◌≡◌, ◌⊎◌, []};
ghost use Rattle.lr_base.specs.Outside.{IsSameSink};
ghost use Rattle.lrpar_cli.specs.Endings.{IsSaid};
ghost use Rattle.lrpar_cli.specs.Stops.{said_of, status_of};

use crate::stop::Stop;
use answer_theory::Status;
use lr_base::{Sink, write_all};

const READ_FAULT: &[u8] = b"read fault\n";

const WRITE_FAULT: &[u8] = b"write fault\n";

/// Says something on the error output and ends with the status, or with a write fault.
pub fn say<E: Sink>(err: &mut E, said: &[u8], status: Status) -> Status
    ensures said { IsSaid (E.seen err.old) (E.seen err.new) said.now status result }
    ensures same { IsSameSink (E.seen err.old) (E.seen err.new) }
    ensures answer { (result ≡ status) ⊎ (result ≡ Status.WriteFault) }
    ensures silent { said.now ≡ [] → err.new ≡ err.old }
{
    match write_all(err, said) {
        Ok(()) => status,
        Err(_) => Status::WriteFault,
    }
}

/// Says what is to be said of an outcome, and answers how the call ended.
pub fn end<E: Sink>(err: &mut E, outcome: Result<(), Stop>) -> Status
    ensures said { IsSaid (E.seen err.old) (E.seen err.new) (said_of outcome) (status_of outcome) result }
    ensures same { IsSameSink (E.seen err.old) (E.seen err.new) }
    ensures answer { (result ≡ status_of outcome) ⊎ (result ≡ Status.WriteFault) }
    ensures silent { said_of outcome ≡ [] → err.new ≡ err.old }
{
    match outcome {
        Ok(()) => Status::Done,
        Err(Stop::Due(status, said)) => say(err, said.as_slice(), status),
        Err(Stop::Unread) => say(err, READ_FAULT, Status::ReadFault),
        Err(Stop::Unwritten) => say(err, WRITE_FAULT, Status::WriteFault),
        Err(Stop::Spent) => Status::NoMemory,
    }
}
