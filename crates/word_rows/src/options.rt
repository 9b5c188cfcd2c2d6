//! Rows of the options of a run: what is wanted of a text, how it is cut to be parsed, and by how many workers.

use command_words::{Command, RunOptions, Want, WordFault, command_of};
use run_theory::Emit;
use std::alloc::{AllocError, Global};
use std::process::Abort;
use std::test::Fail;
use tally_theory::Cut;

/// How a text is cut.
enum Segments {
    /// Into so many, evenly.
    Even(u32),
    /// At these lines.
    At(&'static [u32]),
}

/// Words that are parted by spaces, and the options that they tell.
struct OptionsRow {
    words: &'static str,
    want: Want,
    segments: Segments,
    workers: u32,
}

static TOLD: [OptionsRow; 12] = [
    OptionsRow {
        words: "run s t",
        want: Want::Text(Emit::Output),
        segments: Segments::Even(16),
        workers: 4,
    },
    OptionsRow {
        words: "run s t --workers 1 --cut 1",
        want: Want::Text(Emit::Output),
        segments: Segments::Even(1),
        workers: 1,
    },
    OptionsRow {
        words: "run --cut=40 s --workers=8 t",
        want: Want::Text(Emit::Output),
        segments: Segments::Even(40),
        workers: 8,
    },
    OptionsRow {
        words: "run s t --emit names --cut 2",
        want: Want::Text(Emit::Names),
        segments: Segments::Even(2),
        workers: 4,
    },
    OptionsRow {
        words: "run s t --workers 64 --emit report",
        want: Want::Report,
        segments: Segments::Even(16),
        workers: 64,
    },
    OptionsRow {
        words: "run s t --cut 000004096 --workers 000000064",
        want: Want::Text(Emit::Output),
        segments: Segments::Even(4096),
        workers: 64,
    },
    OptionsRow {
        words: "run s t --at 2,2,3 --emit report",
        want: Want::Report,
        segments: Segments::At(&[2, 2, 3]),
        workers: 4,
    },
    OptionsRow {
        words: "run s t --workers 2 --at 1",
        want: Want::Text(Emit::Output),
        segments: Segments::At(&[1]),
        workers: 2,
    },
    OptionsRow {
        words: "run --workers 2 -- s --workers",
        want: Want::Text(Emit::Output),
        segments: Segments::Even(16),
        workers: 2,
    },
    OptionsRow {
        words: "load s --from 0 --size 1 --cut 2 --emit report",
        want: Want::Report,
        segments: Segments::Even(2),
        workers: 4,
    },
    OptionsRow {
        words: "load s --workers 3 --from 0 --size 1",
        want: Want::Text(Emit::Output),
        segments: Segments::Even(16),
        workers: 3,
    },
    OptionsRow {
        words: "load --at=999999999 --size 1 s --emit names --from 7",
        want: Want::Text(Emit::Names),
        segments: Segments::At(&[999_999_999]),
        workers: 4,
    },
];

/// Words that ask for nothing.
static BAD: [&str; 32] = [
    "run",
    "run s",
    "run s t u",
    "run s t --cut 2 --at 2",
    "run s t --at 2 --cut 2",
    "run s t --workers 0",
    "run s t --workers 65",
    "run s t --workers 0000000064",
    "run s t --workers 4294967297",
    "run s t --workers +4",
    "run s t --workers -4",
    "run s t --workers 4,",
    "run s t --workers",
    "run s t --workers=",
    "run s t --workers 2 --workers 2",
    "run s t --workers=2 --workers 2",
    "run s t --worker 2",
    "run s t --workers --cut 2",
    "run s t --cut 0",
    "run s t --cut 4097",
    "run s t --cut 2 --cut 2",
    "run s t --cu 2",
    "run s t --at 3,2",
    "run s t --at 0",
    "run s t --at 2,,3",
    "run s t --at 2,3,",
    "run s t --emit tree",
    "tokens s t --workers 2",
    "check s --workers 2",
    "tables s --cut 2",
    "gen s --from 0 --size 1 --workers 2",
    "load s --from 0 --size 1 --workers 65",
];

/// The words of a line, parted by single spaces.
fn words_of(alloc: Global, line: &str) -> Result<Vec<String>, AllocError> {
    let mut words = Vec::new(alloc);
    for word in line.split(' ') {
        words.push(String::from_str(alloc, word)?)?;
    }
    Ok(words)
}

fn is_cut_so(cut: &Cut, segments: &Segments) -> bool {
    match (cut, segments) {
        (Cut::Even(count), Segments::Even(wanted)) => *count == *wanted,
        (Cut::At(begins), Segments::At(lines)) => begins.as_slice() == *lines,
        (_, _) => false,
    }
}

fn are_told(options: &RunOptions, row: &OptionsRow) -> bool {
    options.want == row.want
        && options.workers == row.workers
        && is_cut_so(&options.cut, &row.segments)
}

/// Whether the words of a row are a run, of a sheet or of a sheet and a text, with the row's options.
fn is_told(alloc: Global, row: &OptionsRow) -> Result<bool, AllocError> {
    let words = words_of(alloc, row.words)?;
    Ok(match command_of(alloc, &words) {
        Ok(Command::Run { options, .. }) => are_told(&options, row),
        Ok(Command::Load { options, .. }) => are_told(&options, row),
        _ => false,
    })
}

fn is_bad(alloc: Global, line: &str) -> Result<bool, AllocError> {
    let words = words_of(alloc, line)?;
    Ok(matches!(command_of(alloc, &words), Err(WordFault::BadWords)))
}

fn assert_told<R: Abort>(rt: &R, alloc: Global) -> Result<(), Fail> {
    for row in &TOLD {
        let told = is_told(alloc, row)?;
        assert!(rt; told, "{}", row.words);
    }
    Ok(())
}

fn assert_bad<R: Abort>(rt: &R, alloc: Global) -> Result<(), Fail> {
    for line in &BAD {
        let bad = is_bad(alloc, line)?;
        assert!(rt; bad, "{line}");
    }
    Ok(())
}

#[test]
fn tells_the_cutting_and_the_workers(rt: HostRuntime) -> Result<(), Fail> {
    assert_told(&rt, rt.alloc())
}

#[test]
fn refuses_words_of_no_form(rt: HostRuntime) -> Result<(), Fail> {
    assert_bad(&rt, rt.alloc())
}
