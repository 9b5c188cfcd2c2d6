//! Times the parse of a text's tokens in segments, each for all left contexts at once, beside the parse of the same tokens from
//! left to right, in turns. The words are the file of a sheet, the file of a text, the number of segments and the number of
//! turns. The output says what the segments are parsed into; the error output has a line with the pages of memory that the
//! process takes, where the system says that, before a parse in segments, behind it, and behind a second one by the same table
//! of maps; and then a line a turn with the two times, in microseconds of the processor.
#![tactic(auto)]

mod counts;
mod fault;
mod input;
mod resident;
mod turns;
mod words;

use crate::counts::Counts;
use crate::fault::Fault;
use crate::input::read_input;
use crate::turns::take_turns;
use crate::words::Words;
use lr_base::FileShelf;
use std::process::ExitCode;
use std::rt::{Clock, Env, Files};
use std::time::CpuClock;
use std::{env, io};

/// The words after the program's name.
fn words_of<R: Env + AllocGlobal>(rt: &R) -> io::Result<Vec<String>> {
    Ok(env::args(rt)?.skip(1).collect(rt.alloc())?)
}

/// What the segments of the named text are parsed into, where so many turns were taken.
fn measure<R: Files + Env + CpuClock + Eprint + AllocGlobal>(rt: &R) -> Result<Counts, Fault> {
    let alloc = rt.alloc();
    let given = words_of(rt)?;
    let words = Words::of(&given)?;
    let mut shelf = FileShelf::new(rt);
    let input = read_input(alloc, &mut shelf, words.sheet, words.text)?;
    take_turns(rt, alloc, &input, words.segments, words.turns)
}

fn main(rt: HostRuntime) -> ExitCode {
    match measure(&rt) {
        Ok(counts) => match println!(rt; "{counts}") {
            Ok(()) => ExitCode::SUCCESS,
            Err(_) => ExitCode::FAILURE,
        },
        Err(fault) => {
            let _ = eprintln!(rt; "{fault}");
            ExitCode::FAILURE
        }
    }
}
