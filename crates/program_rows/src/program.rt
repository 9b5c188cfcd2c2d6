//! Rows of the program: words, files and sinks in memory, and what the call answers.

use crate::memory::{Ending, LETLE, LETLE_LIST, LETS, ROOM, ending_of, shelf_of, sink_of};
use std::alloc::Global;
use std::process::Abort;
use std::test::Fail;
use std::thread::Threads;

/// Words that are parted by spaces, a sheet under the name `s`, a text under `t`, the calls of the shelf that fail, the
/// room and the step of the output, the writes of both outputs that fail; and what the call answers.
#[derive(Clone, Copy)]
struct Row {
    name: &'static str,
    words: &'static str,
    sheet: &'static [u8],
    text: &'static [u8],
    shelf_fails: &'static [u64],
    room: usize,
    step: usize,
    out_fails: &'static [u64],
    err_fails: &'static [u64],
    status: u8,
    out: &'static [u8],
    err: &'static [u8],
}

/// A text with a token of each kind and a bad byte, over which nothing fails.
const PLAIN: Row = Row {
    name: "two literals and a bad byte",
    words: "tokens s t",
    sheet: LETS,
    text: LETLE,
    shelf_fails: &[],
    room: ROOM,
    step: ROOM,
    out_fails: &[],
    err_fails: &[],
    status: 0,
    out: LETLE_LIST,
    err: b"",
};

const REFUSED: Row = Row {
    status: 3,
    out: b"",
    err: b"",
    ..PLAIN
};

const BAD_WORDS: Row = Row {
    status: 2,
    out: b"",
    err: b"bad words\n",
    ..PLAIN
};

const READ_FAULT: Row = Row {
    status: 4,
    out: b"",
    err: b"read fault\n",
    ..PLAIN
};

const WRITE_FAULT: Row = Row {
    status: 5,
    out: b"",
    err: b"write fault\n",
    ..PLAIN
};

/// A sheet that is read as a text too.
const PERCENT: &[u8] = b"%token P '%'\n%%\ns : P ;\n";

const PERCENT_LIST: &[u8] = b"1 1 1 P\n\
1 2 1 bad byte\n1 3 1 bad byte\n1 4 1 bad byte\n1 5 1 bad byte\n1 6 1 bad byte\n\
1 7 1 bad byte\n1 8 1 bad byte\n1 9 1 bad byte\n1 10 1 bad byte\n1 11 1 P\n1 12 1 bad byte\n\
2 1 1 P\n2 2 1 P\n\
3 1 1 bad byte\n3 2 1 bad byte\n3 3 1 bad byte\n3 4 1 bad byte\n3 5 1 bad byte\n\
3 6 1 bad byte\n3 7 1 bad byte\n3 end of text\n";

static INPUTS: [Row; 8] = [
    PLAIN,
    Row {
        name: "an empty text",
        text: b"",
        out: b"1 end of text\n",
        ..PLAIN
    },
    Row {
        name: "one file as sheet and text",
        words: "tokens s s",
        sheet: PERCENT,
        out: PERCENT_LIST,
        ..PLAIN
    },
    Row {
        name: "names with digits, and literals of any printable bytes",
        sheet: b"%token A_1 ' '\n%token _ '~\"#'\n%%\nr0 : _ A_1 _ ;\n",
        text: b"~\"# ~",
        out: b"1 1 3 _\n1 4 1 A_1\n1 5 1 bad byte\n1 end of text\n",
        ..PLAIN
    },
    Row {
        name: "no sheet under the name",
        words: "tokens x t",
        ..READ_FAULT
    },
    Row {
        name: "no text under the name",
        words: "tokens s x",
        ..READ_FAULT
    },
    Row {
        name: "an empty word as a name",
        words: "tokens s ",
        ..READ_FAULT
    },
    Row {
        name: "a refused sheet and a missing text",
        words: "tokens s x",
        sheet: b"%%\n",
        err: b"sheet fault 7: no rules\n",
        ..REFUSED
    },
];

static TEXTS: [Row; 11] = [
    Row {
        name: "no last line feed",
        text: b"let",
        out: b"1 1 3 LET\n1 end of text\n",
        ..PLAIN
    },
    Row {
        name: "a line feed alone",
        text: b"\n",
        out: b"1 end of text\n",
        ..PLAIN
    },
    Row {
        name: "two line feeds",
        text: b"\n\n",
        out: b"2 end of text\n",
        ..PLAIN
    },
    Row {
        name: "two lines",
        text: b"le\nlet\n",
        out: b"1 1 2 L\n2 1 3 LET\n2 end of text\n",
        ..PLAIN
    },
    Row {
        name: "a carriage return",
        text: b"le\r\n",
        out: b"1 1 2 L\n1 3 1 bad byte\n1 end of text\n",
        ..PLAIN
    },
    Row {
        name: "the least and the greatest byte",
        text: b"\x00let\xff",
        out: b"1 1 1 bad byte\n1 2 3 LET\n1 5 1 bad byte\n1 end of text\n",
        ..PLAIN
    },
    Row {
        name: "the longest literal wins",
        text: b"letlelet",
        out: b"1 1 3 LET\n1 4 2 L\n1 6 3 LET\n1 end of text\n",
        ..PLAIN
    },
    Row {
        name: "the longest literal wins after a bad byte",
        text: b"llet",
        out: b"1 1 1 bad byte\n1 2 3 LET\n1 end of text\n",
        ..PLAIN
    },
    Row {
        name: "no token goes on to the next line",
        text: b"le\nt",
        out: b"1 1 2 L\n2 1 1 bad byte\n2 end of text\n",
        ..PLAIN
    },
    Row {
        name: "empty lines before a column",
        text: b"\n\n le",
        out: b"3 1 1 bad byte\n3 2 2 L\n3 end of text\n",
        ..PLAIN
    },
    Row {
        name: "a part of a literal at the end",
        text: b"l",
        out: b"1 1 1 bad byte\n1 end of text\n",
        ..PLAIN
    },
];

static SHEETS: [Row; 13] = [
    Row {
        name: "a pattern that has the empty text",
        sheet: b"%token ID /[a-z]*/\n%%\ns : 'if' { \"K\" } | ID { \"I\" $1 } ;\n",
        err: b"sheet fault 4: line 1: pattern matches the empty text\n",
        ..REFUSED
    },
    Row {
        name: "no bytes",
        sheet: b"",
        err: b"sheet fault 2: line 1: syntax\n",
        ..REFUSED
    },
    Row {
        name: "no line of two percent signs",
        sheet: b"%token L 'le'\ns : L ;\n",
        err: b"sheet fault 2: line 2: syntax\n",
        ..REFUSED
    },
    Row {
        name: "no rule",
        sheet: b"%token L 'le'\n%%\n",
        err: b"sheet fault 7: no rules\n",
        ..REFUSED
    },
    Row {
        name: "one name of two tokens",
        sheet: b"%token L 'le'\n%token L 'let'\n%%\ns : L ;\n",
        err: b"sheet fault 5: line 2: redeclared\n",
        ..REFUSED
    },
    Row {
        name: "one literal of two tokens",
        sheet: b"%token L 'le'\n%token M 'le'\n%%\ns : L ;\n",
        err: b"sheet fault 5: line 2: redeclared\n",
        ..REFUSED
    },
    Row {
        name: "a literal of no bytes",
        sheet: b"%token L ''\n%%\ns : L ;\n",
        err: b"sheet fault 4: line 1: pattern matches the empty text\n",
        ..REFUSED
    },
    Row {
        name: "a backslash in a literal",
        sheet: b"%token L 'l\\e'\n%%\ns : L ;\n",
        err: b"sheet fault 2: line 1: syntax\n",
        ..REFUSED
    },
    Row {
        name: "a byte above 0x7E in a literal",
        sheet: b"%token L 'l\x7f'\n%%\ns : L ;\n",
        err: b"sheet fault 1: line 1: bad byte\n",
        ..REFUSED
    },
    Row {
        name: "a name that begins with a digit",
        sheet: b"%token 1L 'le'\n%%\ns : 1L ;\n",
        err: b"sheet fault 2: line 1: syntax\n",
        ..REFUSED
    },
    Row {
        name: "a name that no line declares",
        sheet: b"%token L 'le'\n%%\ns : L M ;\n",
        err: b"sheet fault 6: line 3: unknown symbol\n",
        ..REFUSED
    },
    Row {
        name: "a token as the left side",
        sheet: b"%token L 'le'\n%%\nL : L ;\n",
        err: b"sheet fault 5: line 3: redeclared\n",
        ..REFUSED
    },
    Row {
        name: "21 names in the right side",
        sheet: b"%token L 'le'\n%%\ns : L L L L L L L L L L L L L L L L L L L L L ;\n",
        err: b"sheet fault 11: too large: right side 21\n",
        ..REFUSED
    },
];

/// Words of no form. The first call of the shelf and of the output would fail, so a call that is made ends otherwise.
static WORDS: [Row; 19] = [
    Row {
        name: "no words",
        words: "",
        shelf_fails: &[1],
        out_fails: &[1],
        ..BAD_WORDS
    },
    Row {
        name: "tokens",
        words: "tokens",
        shelf_fails: &[1],
        out_fails: &[1],
        ..BAD_WORDS
    },
    Row {
        name: "tokens s",
        words: "tokens s",
        shelf_fails: &[1],
        out_fails: &[1],
        ..BAD_WORDS
    },
    Row {
        name: "tokens s t u",
        words: "tokens s t u",
        shelf_fails: &[1],
        out_fails: &[1],
        ..BAD_WORDS
    },
    Row {
        name: "tokens -s t",
        words: "tokens -s t",
        shelf_fails: &[1],
        out_fails: &[1],
        ..BAD_WORDS
    },
    Row {
        name: "tokens s -t",
        words: "tokens s -t",
        shelf_fails: &[1],
        out_fails: &[1],
        ..BAD_WORDS
    },
    Row {
        name: "tokens s --",
        words: "tokens s --",
        shelf_fails: &[1],
        out_fails: &[1],
        ..BAD_WORDS
    },
    Row {
        name: "Tokens s t",
        words: "Tokens s t",
        shelf_fails: &[1],
        out_fails: &[1],
        ..BAD_WORDS
    },
    Row {
        name: "check --help",
        words: "check --help",
        shelf_fails: &[1],
        out_fails: &[1],
        ..BAD_WORDS
    },
    Row {
        name: "run",
        words: "run",
        shelf_fails: &[1],
        out_fails: &[1],
        ..BAD_WORDS
    },
    Row {
        name: "run s t --cut 2 --at 2",
        words: "run s t --cut 2 --at 2",
        shelf_fails: &[1],
        out_fails: &[1],
        ..BAD_WORDS
    },
    Row {
        name: "run s t --workers 65",
        words: "run s t --workers 65",
        shelf_fails: &[1],
        out_fails: &[1],
        ..BAD_WORDS
    },
    Row {
        name: "run s t --workers 0",
        words: "run s t --workers 0",
        shelf_fails: &[1],
        out_fails: &[1],
        ..BAD_WORDS
    },
    Row {
        name: "run s t --at 3,2",
        words: "run s t --at 3,2",
        shelf_fails: &[1],
        out_fails: &[1],
        ..BAD_WORDS
    },
    Row {
        name: "load s --from 0 --size 1 --workers 65",
        words: "load s --from 0 --size 1 --workers 65",
        shelf_fails: &[1],
        out_fails: &[1],
        ..BAD_WORDS
    },
    Row {
        name: "tokens s t --emit names",
        words: "tokens s t --emit names",
        shelf_fails: &[1],
        out_fails: &[1],
        ..BAD_WORDS
    },
    Row {
        name: "lines s t",
        words: "lines s t",
        shelf_fails: &[1],
        out_fails: &[1],
        ..BAD_WORDS
    },
    Row {
        name: "bad words, and the error output fails",
        words: "tokens s",
        err_fails: &[1],
        status: 5,
        err: b"",
        ..BAD_WORDS
    },
    Row {
        name: "bad words, and the error output fails late",
        words: "tokens s",
        err_fails: &[2],
        ..BAD_WORDS
    },
];

/// A sheet and a text each take a `begin`, a `read` of all their bytes and a `read` at their end: six calls.
static READS: [Row; 7] = [
    Row {
        name: "call 1 fails",
        shelf_fails: &[1],
        ..READ_FAULT
    },
    Row {
        name: "call 2 fails",
        shelf_fails: &[2],
        ..READ_FAULT
    },
    Row {
        name: "call 3 fails",
        shelf_fails: &[3],
        ..READ_FAULT
    },
    Row {
        name: "call 4 fails",
        shelf_fails: &[4],
        ..READ_FAULT
    },
    Row {
        name: "call 5 fails",
        shelf_fails: &[5],
        ..READ_FAULT
    },
    Row {
        name: "call 6 fails",
        shelf_fails: &[6],
        ..READ_FAULT
    },
    Row {
        name: "call 7 fails, which is not made",
        shelf_fails: &[7],
        ..PLAIN
    },
];

static WRITES: [Row; 9] = [
    Row {
        name: "the second write fails, of steps of 4",
        step: 4,
        out_fails: &[2],
        out: b"1 1 ",
        ..WRITE_FAULT
    },
    Row {
        name: "the first write fails",
        out_fails: &[1],
        ..WRITE_FAULT
    },
    Row {
        name: "no write fails, of steps of 1",
        step: 1,
        ..PLAIN
    },
    Row {
        name: "room for one byte less than the list has",
        room: 46,
        out: b"1 1 3 LET\n1 4 2 L\n1 6 1 bad byte\n1 end of text",
        ..WRITE_FAULT
    },
    Row {
        name: "room for the list exactly",
        room: 47,
        ..PLAIN
    },
    Row {
        name: "room for nothing",
        room: 0,
        ..WRITE_FAULT
    },
    Row {
        name: "both outputs fail",
        out_fails: &[1],
        err_fails: &[1],
        err: b"",
        ..WRITE_FAULT
    },
    Row {
        name: "the error output would fail, and is not used",
        err_fails: &[1],
        ..PLAIN
    },
    Row {
        name: "a read fault, and the error output fails",
        shelf_fails: &[2],
        err_fails: &[1],
        err: b"",
        ..WRITE_FAULT
    },
];

fn ending_of_row<R: Threads + Sync>(rt: &R, alloc: Global, row: &Row) -> Result<Ending, Fail> {
    let shelf = shelf_of(alloc, row.sheet, row.text, row.shelf_fails)?;
    let out = sink_of(alloc, row.room, row.step, row.out_fails)?;
    let err = sink_of(alloc, ROOM, ROOM, row.err_fails)?;
    Ok(ending_of(rt, alloc, row.words, shelf, out, err)?)
}

/// Asserts that each row's call answers what the row states.
fn assert_rows<R: Abort + Threads + Sync>(rt: &R, alloc: Global, rows: &[Row]) -> Result<(), Fail> {
    for row in rows {
        let ending = ending_of_row(rt, alloc, row)?;
        assert!(rt;
            ending.is(row.status, row.out, row.err),
            "{}: {ending:?}",
            row.name
        );
    }
    Ok(())
}

#[test]
fn answers_words_sheets_and_texts(rt: HostRuntime) -> Result<(), Fail> {
    assert_rows(&rt, rt.alloc(), &INPUTS)
}

#[test]
fn places_tokens_by_line_and_column(rt: HostRuntime) -> Result<(), Fail> {
    assert_rows(&rt, rt.alloc(), &TEXTS)
}

#[test]
fn refuses_sheets_of_other_forms(rt: HostRuntime) -> Result<(), Fail> {
    assert_rows(&rt, rt.alloc(), &SHEETS)
}

#[test]
fn reads_nothing_for_words_of_no_form(rt: HostRuntime) -> Result<(), Fail> {
    assert_rows(&rt, rt.alloc(), &WORDS)
}

#[test]
fn tells_a_failed_read_at_each_call(rt: HostRuntime) -> Result<(), Fail> {
    assert_rows(&rt, rt.alloc(), &READS)
}

#[test]
fn tells_a_failed_write(rt: HostRuntime) -> Result<(), Fail> {
    assert_rows(&rt, rt.alloc(), &WRITES)
}
