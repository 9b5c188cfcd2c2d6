//! The program's call over files and sinks in memory.

use lr_base::{MemShelf, MemSink, NoMemory, OpenGate};
use lrpar_cli::lrpar;
use std::alloc::{AllocError, Global};
use std::test::Fail;
use std::thread::Threads;

/// A sheet of two literals, of which the second begins the first.
pub const LETS: &[u8] = b"%token LET 'let'\n%token L 'le'\n%%\ns : LET L ;\n";

/// A text with a token of each, and a bad byte.
pub const LETLE: &[u8] = b"letle?\n";

/// Its token list, of 47 bytes.
pub const LETLE_LIST: &[u8] = b"1 1 3 LET\n1 4 2 L\n1 6 1 bad byte\n1 end of text\n";

/// More room than these calls write.
pub const ROOM: usize = 4_194_304;

/// How a call ended, and what the two outputs took.
#[derive(Debug, Drop)]
pub struct Ending {
    pub status: u8,
    pub out: Vec<u8>,
    pub err: Vec<u8>,
}

impl Ending {
    /// Whether the call ended so, and the outputs took exactly these bytes.
    pub fn is(&self, status: u8, out: &[u8], err: &[u8]) -> bool {
        self.status == status && self.out.as_slice() == out && self.err.as_slice() == err
    }
}

/// The words of a line, parted by single spaces; an empty line has none.
pub fn words_of(alloc: Global, line: &str) -> Result<Vec<String>, AllocError> {
    let mut words = Vec::new(alloc);
    if line.is_empty() {
        return Ok(words);
    }
    for word in line.split(' ') {
        words.push(String::from_str(alloc, word)?)?;
    }
    Ok(words)
}

/// The sheet under the name `s`, and the text under `t`.
pub fn files_of(
    alloc: Global,
    sheet: Vec<u8>,
    text: Vec<u8>,
) -> Result<Vec<(String, Vec<u8>)>, AllocError> {
    let sheet_name = String::from_str(alloc, "s")?;
    let text_name = String::from_str(alloc, "t")?;
    let mut files = Vec::new(alloc);
    files.push((sheet_name, sheet))?;
    files.push((text_name, text))?;
    Ok(files)
}

/// A shelf of a sheet and a text, of which the calls with these numbers fail.
pub fn shelf_of(
    alloc: Global,
    sheet: &[u8],
    text: &[u8],
    fails: &[u64],
) -> Result<MemShelf, AllocError> {
    let sheet = Vec::from_slice(alloc, sheet)?;
    let text = Vec::from_slice(alloc, text)?;
    let fails = Vec::from_slice(alloc, fails)?;
    Ok(MemShelf::new(files_of(alloc, sheet, text)?, fails))
}

pub fn sink_of(
    alloc: Global,
    room: usize,
    step: usize,
    fails: &[u64],
) -> Result<MemSink, NoMemory> {
    let fails = Vec::from_slice(alloc, fails)?;
    MemSink::new(alloc, room, step.max(1), fails)
}

/// The call of these words over a shelf and two sinks.
pub fn ending_of<R: Threads + Sync>(
    rt: &R,
    alloc: Global,
    words: &str,
    mut shelf: MemShelf,
    mut out: MemSink,
    mut err: MemSink,
) -> Result<Ending, AllocError> {
    let words = words_of(alloc, words)?;
    let status = lrpar(rt, alloc, &words, &mut shelf, &mut out, &mut err, &OpenGate);
    Ok(Ending {
        status: status.code(),
        out: Vec::from_slice(alloc, out.bytes())?,
        err: Vec::from_slice(alloc, err.bytes())?,
    })
}

/// The call of these words over a sheet and a text, of which no call fails.
pub fn answer_of<R: Threads + Sync>(
    rt: &R,
    alloc: Global,
    words: &str,
    sheet: Vec<u8>,
    text: Vec<u8>,
) -> Result<Ending, Fail> {
    let shelf = MemShelf::new(files_of(alloc, sheet, text)?, Vec::new(alloc));
    let out = sink_of(alloc, ROOM, ROOM, &[])?;
    let err = sink_of(alloc, ROOM, ROOM, &[])?;
    Ok(ending_of(rt, alloc, words, shelf, out, err)?)
}
