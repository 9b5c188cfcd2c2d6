//! The program: the library's one call over the real files, output and error output.
#![tactic(auto)]

use lr_base::{ErrSink, FileShelf, OpenGate, OutSink};
use lrpar_cli::lrpar;
use std::process::ExitCode;
use std::rt::Env;
use std::{env, io};

/// The words after the program's name.
fn words_of<R: Env + AllocGlobal>(rt: &R) -> io::Result<Vec<String>> {
    Ok(env::args(rt)?.skip(1).collect(rt.alloc())?)
}

fn main(rt: HostRuntime) -> ExitCode {
    let alloc = rt.alloc();
    // Words that aren't text are of no form, and so is no word at all.
    let words = words_of(&rt).unwrap_or(Vec::new(alloc));
    let mut shelf = FileShelf::new(&rt);
    let mut out = OutSink::new(rt.stdout());
    let mut err = ErrSink::new(rt.stderr());
    let status = lrpar(
        &rt, alloc, &words, &mut shelf, &mut out, &mut err, &OpenGate,
    );
    ExitCode::from(status.code())
}
