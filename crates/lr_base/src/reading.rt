ghost use Rattle.std.specs.Prelude.{◌≡◌, ◌≢◌, ◌≤◌, ◌++◌, ◌∷◌, [], IfOk, IsErr, IsTrue};
ghost use Rattle.lr_base.specs.declared.limits.TheConstants.{READ_BYTES};
ghost use Rattle.lr_base.specs.Outside.{IsSameShelf, Rose, is_listed};
ghost use Rattle.lr_base.specs.Reading.{LosesFront, MatchText};

use crate::errors::Failed;
use crate::shelf::Shelf;
use std::alloc::{AllocError, Global};
use thiserror::Error;

/// What stands under a name: all its bytes, or word that they are more than were asked for.
#[derive(Debug, Drop)]
pub enum Text {
    Whole(Vec<u8>),
    TooLong,
}

/// Why a text wasn't read: a call of the shelf failed, or memory ran out.
#[derive(Clone, Copy, Debug, PartialEq, Eq, Error)]
pub enum ReadFault {
    #[error("the text can't be read")]
    Failed,
    #[error("no memory")]
    NoMemory,
}

impl From<Failed> for ReadFault {
    ghost use Rattle.std.specs.Prelude.{◌≡◌};
    ghost use Rattle.lr_base.specs.declared.reading.ReadFault.TheVariants.{Failed};

    ghost from_gives = { λ _ fault. fault ≡ Failed };

    fn from(_failed: Failed) -> ReadFault {
        ReadFault::Failed
    }
}

impl From<AllocError> for ReadFault {
    ghost use Rattle.std.specs.Prelude.{◌≡◌};
    ghost use Rattle.lr_base.specs.declared.reading.ReadFault.TheVariants.{NoMemory};

    ghost from_gives = { λ _ fault. fault ≡ NoMemory };

    fn from(_error: AllocError) -> ReadFault {
        ReadFault::NoMemory
    }
}

/// How many bytes one read asks for at most.
const BUFFER_BYTES: usize = 65_536;

/// Reads what stands under a name, as far as it has at most `limit` bytes; of a longer text one byte more is read,
/// and none after it. This begins the name, and no other. Over a shelf that tells its bytes a name under which nothing
/// stands can't be read. After an error the shelf lost some of the bytes under the name, and nothing else.
pub fn read_all<S: Shelf>(
    alloc: Global,
    shelf: &mut S,
    name: &str,
    limit: usize,
) -> Result<Text, ReadFault>
    requires { limit ≤ READ_BYTES }
    ensures text { IfOk result (MatchText (S.seen shelf.old) (S.seen shelf.new) name.now limit) }
    ensures lost { IsErr result → IsTrue (S.seen shelf.old).tells → LosesFront (S.seen shelf.old) (S.seen shelf.new) name.now }
    ensures begun { (S.seen shelf.new).begun ≡ (S.seen shelf.old).begun ++ name.now ∷ [] }

    // No memory is the only other error.
    ensures failed { result ≡ Err ReadFault.Failed → Rose (S.seen shelf.old).faults (S.seen shelf.new).faults }
    ensures kept { result ≢ Err ReadFault.Failed → (S.seen shelf.new).faults ≡ (S.seen shelf.old).faults }
    ensures steady { IsTrue (is_listed (S.seen shelf.old).served name.now) → result ≢ Err ReadFault.Failed }
    ensures same { IsSameShelf (S.seen shelf.old) (S.seen shelf.new) }
{
    shelf.begin(name)?;
    let mut bytes = Vec::new(alloc);
    let mut buffer = [0; BUFFER_BYTES];
    while bytes.len() <= limit {
        let wanted = BUFFER_BYTES.min(limit + 1 - bytes.len());
        let count = shelf.read(&mut buffer[..wanted])?;
        if count == 0 {
            return Ok(Text::Whole(bytes));
        }
        bytes.extend_from_slice(&buffer[..count])?;
    }
    Ok(Text::TooLong)
}
