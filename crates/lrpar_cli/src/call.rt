ghost use Rattle.std.specs.Prelude.{◌≡◌, ◌≢◌, ◌⊎◌, map, string_bytes};
ghost use Rattle.lrpar_cli.specs.Endings.{IsEnding, Stays};
ghost use Rattle.word_theory.specs.Words.{IsBadWords};

use crate::commands::run;
use crate::saying::{end, say};
use answer_theory::Status;
use command_words::{WordFault, command_of};
use lr_base::{Gate, Shelf, Sink};
use std::alloc::Global;
use std::thread::Threads;

const BAD_WORDS: &[u8] = b"bad words\n";

/// Runs the program: reads the words after its name, does what they ask for over the shelf, the output and the error
/// output, and answers how it ended.
///
/// The call `ends` in one of these ways: answered, where each sink took exactly what is due to it for the bytes that
/// were read; with a read fault or a write fault, each with its cause; or with want of memory, where no call failed. Of
/// the names of its command it begins a first part, in order, and no others, and no more than the answer needs. Where
/// the words are of no form, nothing is begun or read and the output isn't touched, also where memory runs out over them; no
/// other call ends with bad words. An answer
/// that isn't on the output leaves that untouched. A text is parsed in segments by
/// workers of `rt`; what is written tells nothing of the workers, and of the segments only what a report counts. `gate` is not used yet.
pub fn lrpar<R: Threads + Sync, S: Shelf, O: Sink, E: Sink, G: Gate + Sync>(
    rt: &R,
    alloc: Global,
    words: &[String],
    shelf: &mut S,
    out: &mut O,
    err: &mut E,
    _gate: &G,
) -> Status
    ensures ends { IsEnding (map string_bytes words.now)
        (record { shelf = S.seen shelf.old; out = O.seen out.old; err = E.seen err.old })
        (record { shelf = S.seen shelf.new; out = O.seen out.new; err = E.seen err.new })
        result }
    ensures stays { Stays
        (record { shelf = S.seen shelf.old; out = O.seen out.old; err = E.seen err.old })
        (record { shelf = S.seen shelf.new; out = O.seen out.new; err = E.seen err.new }) }

    ensures words { result ≡ Status.BadWords → IsBadWords (map string_bytes words.now) }
    ensures bad_words { IsBadWords (map string_bytes words.now)
        → ((result ≡ Status.BadWords) ⊎ (result ≡ Status.WriteFault) ⊎ (result ≡ Status.NoMemory)) × (shelf.new ≡ shelf.old) × (out.new ≡ out.old) }
    ensures early { result ≢ Status.Done → result ≢ Status.WriteFault → result ≢ Status.NoMemory → out.new ≡ out.old }
    ensures silent { (result ≡ Status.Done) ⊎ (result ≡ Status.NoMemory) → err.new ≡ err.old }
{
    match command_of(alloc, words) {
        Ok(command) => end(err, run(rt, alloc, command, shelf, out)),
        Err(WordFault::BadWords) => say(err, BAD_WORDS, Status::BadWords),
        Err(WordFault::NoMemory) => Status::NoMemory,
    }
}
