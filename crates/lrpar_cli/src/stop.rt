ghost use Rattle.std.specs.Prelude.{◌≡◌, IfOk, MatchResult};
ghost use Rattle.answer_theory.specs.Tasks.{long_text_text};
ghost use Rattle.lrpar_cli.specs.Stops.{IsDueStop};

use answer_theory::Status;
use block_writer::WriteFault;
use lr_base::{NoMemory, ReadFault};
use sheet_data::Bytes;
use std::alloc::Global;
use thiserror::Error;

const LONG_TEXT: &[u8] = b"text too long\n";

/// Why a command does not come to its end.
#[derive(Debug, Drop, Error)]
pub enum Stop {
    /// This is due on the error output, with the status, and nothing on the output.
    #[error("the answer is on the error output")]
    Due(Status, Bytes),
    #[error("an input can't be read")]
    Unread,
    #[error("the output can't be written")]
    Unwritten,
    #[error("no memory")]
    Spent,
}

impl From<ReadFault> for Stop {
    ghost use Rattle.std.specs.Prelude.{◌≡◌};
    ghost use Rattle.lrpar_cli.specs.Stops.{reading_stop};

    ghost from_gives = { λ fault stop. stop ≡ reading_stop fault };

    fn from(fault: ReadFault) -> Stop {
        match fault {
            ReadFault::Failed => Stop::Unread,
            ReadFault::NoMemory => Stop::Spent,
        }
    }
}

impl From<NoMemory> for Stop {
    ghost use Rattle.std.specs.Prelude.{◌≡◌};
    ghost use Rattle.lrpar_cli.specs.declared.stop.Stop.TheVariants.{Spent};

    ghost from_gives = { λ _ stop. stop ≡ Spent };

    fn from(_error: NoMemory) -> Stop {
        Stop::Spent
    }
}

impl From<WriteFault> for Stop {
    ghost use Rattle.std.specs.Prelude.{◌≡◌};
    ghost use Rattle.lrpar_cli.specs.Stops.{writing_stop};

    ghost from_gives = { λ fault stop. stop ≡ writing_stop fault };

    fn from(fault: WriteFault) -> Stop {
        match fault {
            WriteFault::Failed => Stop::Unwritten,
            WriteFault::NoMemory => Stop::Spent,
        }
    }
}

/// The stop at which a text is due, where memory was left for it.
pub fn due(status: Status, said: Result<Vec<u8>, NoMemory>) -> Stop
    ensures { MatchResult said (λ text. result ≡ Stop.Due status text.items) (λ _. result ≡ Stop.Spent) }
{
    match said {
        Ok(text) => Stop::Due(status, Bytes::from_vec(text)),
        Err(NoMemory) => Stop::Spent,
    }
}

fn made_of(alloc: Global, said: &[u8]) -> Result<Vec<u8>, NoMemory>
    ensures { IfOk result (λ text. text.items ≡ said.now) }
{
    Ok(Vec::from_slice(alloc, said)?)
}

/// The stop at a text that is too long.
pub fn long_text(alloc: Global) -> Stop
    ensures { IsDueStop Status.TextTooLong long_text_text result }
{
    due(Status::TextTooLong, made_of(alloc, LONG_TEXT))
}
