//! Rows of the program at its limits, and over a shelf that never fails and outputs that only count.

use crate::memory::{Ending, LETLE, LETS, answer_of, files_of, words_of};
use lr_base::{CountSink, OpenGate, SteadyShelf};
use lrpar_cli::{Status, lrpar};
use std::alloc::{AllocError, Global};
use std::test::Fail;
use std::thread::Threads;

/// A sheet of one token by the letters of its name and of its literal, a text by its letters, and what the call answers:
/// its status, the bytes and lines of its output, with their front and back, and the error output.
struct LimitRow {
    name: &'static str,
    name_letters: usize,
    literal_letters: usize,
    text_letters: usize,
    status: u8,
    bytes: usize,
    lines: usize,
    front: &'static [u8],
    back: &'static [u8],
    err: &'static [u8],
}

/// The list of the greatest text has the lines `1 C 512 X` for the columns 1, 513, .., 8388097, and the line of the end.
/// With a name of 131,061 letters a sheet has 262,143 bytes beside its literal.
static LIMITS: [LimitRow; 5] = [
    LimitRow {
        name: "the greatest text",
        name_letters: 1,
        literal_letters: 512,
        text_letters: 8_388_608,
        status: 0,
        bytes: 259_984,
        lines: 16_385,
        front: b"1 1 512 X\n1 513 512 X\n1 1025 512 X\n",
        back: b"\n1 8387585 512 X\n1 8388097 512 X\n1 end of text\n",
        err: b"",
    },
    LimitRow {
        name: "a text of one byte more",
        name_letters: 1,
        literal_letters: 512,
        text_letters: 8_388_609,
        status: 7,
        bytes: 0,
        lines: 0,
        front: b"",
        back: b"",
        err: b"text too long\n",
    },
    LimitRow {
        name: "the greatest sheet",
        name_letters: 131_061,
        literal_letters: 1,
        text_letters: 1,
        status: 0,
        bytes: 131_082,
        lines: 2,
        front: b"1 1 1 XXXX",
        back: b"XXXX\n1 end of text\n",
        err: b"",
    },
    LimitRow {
        name: "a sheet of one byte more",
        name_letters: 131_061,
        literal_letters: 2,
        text_letters: 1,
        status: 3,
        bytes: 0,
        lines: 0,
        front: b"",
        back: b"",
        err: b"sheet fault 11: too large: sheet bytes 262145\n",
    },
    LimitRow {
        name: "a long line of 136 tokens and 368 bad bytes",
        name_letters: 1,
        literal_letters: 512,
        text_letters: 70_000,
        status: 0,
        bytes: 8_886,
        lines: 505,
        front: b"1 1 512 X\n1 513 512 X\n1 1025 512 X\n",
        back: b"\n1 69999 1 bad byte\n1 70000 1 bad byte\n1 end of text\n",
        err: b"",
    },
];

/// The sheet of one token, whose name and whose literal are so many letters.
fn sheet_of(alloc: Global, row: &LimitRow) -> Result<Vec<u8>, AllocError> {
    let name = vec![in alloc; b'X'; row.name_letters]?;
    let literal = vec![in alloc; b'x'; row.literal_letters]?;
    let mut sheet = Vec::new(alloc);
    for piece in [
        b"%token ".as_slice(),
        &name,
        b" '",
        &literal,
        b"'\n%%\ns : ",
        &name,
        b" ;\n",
    ] {
        sheet.extend_from_slice(piece)?;
    }
    Ok(sheet)
}

/// How many lines some bytes have, each with a line feed.
fn count_lines(bytes: &[u8]) -> usize {
    bytes.iter().filter(|byte| **byte == b'\n').count()
}

fn is_as_stated(row: &LimitRow, ending: &Ending) -> bool {
    let out = ending.out.as_slice();
    ending.status == row.status
        && out.len() == row.bytes
        && count_lines(out) == row.lines
        && out.starts_with(row.front)
        && out.ends_with(row.back)
        && ending.err.as_slice() == row.err
}

fn answers_as_stated<R: Threads + Sync>(
    rt: &R,
    alloc: Global,
    row: &LimitRow,
) -> Result<bool, Fail> {
    let sheet = sheet_of(alloc, row)?;
    let text = vec![in alloc; b'x'; row.text_letters]?;
    let ending = answer_of(rt, alloc, "tokens s t", sheet, text)?;
    Ok(is_as_stated(row, &ending))
}

#[test]
fn answers_up_to_the_limits_and_past_them(rt: HostRuntime) -> Result<(), Fail> {
    for row in &LIMITS {
        let answers = answers_as_stated(&rt, rt.alloc(), row)?;
        assert!(rt; answers, "{}", row.name);
    }
    Ok(())
}

/// Words, and what the call over a steady shelf answers: its status, and how many bytes each output takes.
struct CountRow {
    words: &'static str,
    status: Status,
    out: u64,
    err: u64,
}

static COUNTS: [CountRow; 4] = [
    CountRow {
        words: "tokens s t",
        status: Status::Done,
        out: 47,
        err: 0,
    },
    CountRow {
        words: "tokens s x",
        status: Status::Done,
        out: 14,
        err: 0,
    },
    CountRow {
        words: "tokens x t",
        status: Status::SheetRefused,
        out: 0,
        err: 30,
    },
    CountRow {
        words: "tokens",
        status: Status::BadWords,
        out: 0,
        err: 10,
    },
];

/// Whether the call over this shelf, where nothing stands under unknown names, answers what the row states.
fn counts_as_stated<R: Threads + Sync>(
    rt: &R,
    alloc: Global,
    shelf: &mut SteadyShelf,
    row: &CountRow,
) -> Result<bool, AllocError> {
    let words = words_of(alloc, row.words)?;
    let mut out = CountSink::new();
    let mut err = CountSink::new();
    let status = lrpar(rt, alloc, &words, shelf, &mut out, &mut err, &OpenGate);
    Ok(status == row.status && out.count() == row.out && err.count() == row.err)
}

#[test]
fn answers_over_a_steady_shelf_and_counting_outputs(rt: HostRuntime) -> Result<(), Fail> {
    let alloc = rt.alloc();
    let sheet = Vec::from_slice(alloc, LETS)?;
    let text = Vec::from_slice(alloc, LETLE)?;
    let mut shelf = SteadyShelf::new(files_of(alloc, sheet, text)?);
    for row in &COUNTS {
        let answers = counts_as_stated(&rt, alloc, &mut shelf, row)?;
        assert!(rt; answers, "{}", row.words);
    }
    Ok(())
}
