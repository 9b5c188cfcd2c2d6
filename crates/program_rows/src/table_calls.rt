//! Rows of the program's printed tables.

use crate::memory::{ROOM, answer_of, ending_of, shelf_of, sink_of};
use std::test::Fail;

/// The sheet of one rule.
const ONE_RULE: &[u8] = b"%%\ns : 'a' ;\n";

/// Its printed tables, of 226 bytes.
const ONE_RULE_TABLES: &[u8] = b"states 3\n\
state 0\n  s : . 'a' , end of text\n  $accept : . s , end of text\n  on 'a' shift 1\n  to s goto 2\n\
state 1\n  s : 'a' . , end of text\n  on end of text reduce 0\n\
state 2\n  $accept : s . , end of text\n  on end of text accept\n";

/// A sheet with a rule of its own name alone.
const OWN_NAME: &[u8] = b"%%\ns : s | 'a' ;\n";

/// What is said of its conflict.
const OWN_NAME_SAID: &[u8] =
    b"sheet fault 16: conflict in state 2 on end of text\n  s : s . , end of text\n  $accept : s . , end of text\n";

/// A call of the program over a sheet, an output with so much room, and what it answers.
#[derive(Clone, Copy)]
struct Row {
    name: &'static str,
    words: &'static str,
    sheet: &'static [u8],
    room: usize,
    status: u8,
    out: &'static [u8],
    err: &'static [u8],
}

const PRINTED: Row = Row {
    name: "one rule",
    words: "tables s",
    sheet: ONE_RULE,
    room: ROOM,
    status: 0,
    out: ONE_RULE_TABLES,
    err: b"",
};

static CALLS: [Row; 9] = [
    PRINTED,
    Row {
        name: "the command alone",
        words: "tables",
        status: 2,
        out: b"",
        err: b"bad words\n",
        ..PRINTED
    },
    Row {
        name: "a sheet and one word more",
        words: "tables a b",
        status: 2,
        out: b"",
        err: b"bad words\n",
        ..PRINTED
    },
    Row {
        name: "no sheet under the name",
        words: "tables x",
        status: 4,
        out: b"",
        err: b"read fault\n",
        ..PRINTED
    },
    Row {
        name: "room for the tables exactly",
        room: 226,
        ..PRINTED
    },
    Row {
        name: "room for their first line",
        room: 9,
        status: 5,
        out: b"states 3\n",
        err: b"write fault\n",
        ..PRINTED
    },
    Row {
        name: "room for nothing",
        room: 0,
        status: 5,
        out: b"",
        err: b"write fault\n",
        ..PRINTED
    },
    Row {
        name: "a conflict",
        sheet: OWN_NAME,
        status: 3,
        out: b"",
        err: OWN_NAME_SAID,
        ..PRINTED
    },
    Row {
        name: "a useless name",
        sheet: b"%%\ns : 'a' ;\nt : 'b' ;\n",
        status: 3,
        out: b"",
        err: b"sheet fault 13: unreachable: t\n",
        ..PRINTED
    },
];

#[test]
fn tables_are_printed(rt: HostRuntime) -> Result<(), Fail> {
    for row in &CALLS {
        let shelf = shelf_of(rt.alloc(), row.sheet, b"", &[])?;
        let out = sink_of(rt.alloc(), row.room, ROOM, &[])?;
        let err = sink_of(rt.alloc(), ROOM, ROOM, &[])?;
        let ending = ending_of(&rt, rt.alloc(), row.words, shelf, out, err)?;
        assert!(rt; ending.is(row.status, row.out, row.err), "{}", row.name);
    }
    Ok(())
}

#[test]
fn two_lists_print_ten_states(rt: HostRuntime) -> Result<(), Fail> {
    let sheet = Vec::from_slice(rt.alloc(), b"%%\ns : c c ;\nc : 'c' c | 'd' ;\n".as_slice())?;
    let ending = answer_of(&rt, rt.alloc(), "tables s", sheet, Vec::new(rt.alloc()))?;
    assert_eq!(rt; ending.status, 0);
    assert!(rt; ending.out.as_slice().starts_with(b"states 10\nstate 0\n"));
    assert!(rt; ending.err.is_empty());
    Ok(())
}

/// A sheet in which it has to be known which of the last fourteen tokens were `a`.
const FOURTEEN_BACK: &[u8] = b"%%\n\
s : 'a' s | 'b' s | 'a' p1 ;\n\
p1 : 'a' p2 | 'b' p2 ;\np2 : 'a' p3 | 'b' p3 ;\np3 : 'a' p4 | 'b' p4 ;\np4 : 'a' p5 | 'b' p5 ;\n\
p5 : 'a' p6 | 'b' p6 ;\np6 : 'a' p7 | 'b' p7 ;\np7 : 'a' p8 | 'b' p8 ;\np8 : 'a' p9 | 'b' p9 ;\n\
p9 : 'a' p10 | 'b' p10 ;\np10 : 'a' p11 | 'b' p11 ;\np11 : 'a' p12 | 'b' p12 ;\n\
p12 : 'a' p13 | 'b' p13 ;\np13 : 'a' p14 | 'b' p14 ;\np14 : 'a' | 'b' ;\n";

#[test]
fn a_sheet_with_too_many_states(rt: HostRuntime) -> Result<(), Fail> {
    let sheet = Vec::from_slice(rt.alloc(), FOURTEEN_BACK)?;
    let ending = answer_of(&rt, rt.alloc(), "check s", sheet, Vec::new(rt.alloc()))?;
    assert!(rt; ending.is(3, b"", b"sheet fault 15: more than 10000 states\n"));
    Ok(())
}
