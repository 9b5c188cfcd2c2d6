ghost use Rattle.std.specs.Prelude.{◌≡◌, ℕ, ◌+◌, ◌<◌, length, [], IfSome, IsOk, OnOk, OnErr};
ghost use Rattle.lr_base.specs.Outside.{Fails, HasSureRoom, IsSameSink, Takes};

use crate::errors::Failed;
use crate::sink::Sink;

/// Writes all the bytes, in as many calls as the sink wants; of an empty piece it makes none.
pub fn write_all<O: Sink>(sink: &mut O, bytes: &[u8]) -> Result<(), Failed>
    ensures whole { OnOk result (Takes (O.seen sink.old) (O.seen sink.new) bytes.now) }
    ensures failed { OnErr result (Fails (O.seen sink.old) (O.seen sink.new) bytes.now) }
    ensures empty { bytes.now ≡ [] → (result ≡ Ok tt) × (sink.new ≡ sink.old) }
    ensures same { IsSameSink (O.seen sink.old) (O.seen sink.new) }

    // The sure room holds after a write, and where none was made it holds as before.
    ensures written { 0 < length bytes.now → HasSureRoom (O.seen sink.new) }
    ensures kept { HasSureRoom (O.seen sink.old) → HasSureRoom (O.seen sink.new) }
    ensures sure { IfSome (O.seen sink.old).taken
        (λ taken. length taken + length bytes.now < (O.seen sink.old).room → IsOk result) }
{
    let mut at = 0;
    while at < bytes.len() {
        match sink.write(&bytes[at..]) {
            Ok(count) => at += count,
            Err(failed) => return Err(failed),
        }
    }
    Ok(())
}
