//! Rows of the command `check`: what it prints of a sheet, and what it says of its first fault.

use crate::memory::{ROOM, answer_of, ending_of, shelf_of, sink_of};
use std::alloc::{AllocError, Global};
use std::test::Fail;

/// A sheet, and its normal layout.
struct Layout {
    name: &'static str,
    sheet: &'static [u8],
    layout: &'static [u8],
}

static LAYOUTS: [Layout; 7] = [
    Layout {
        name: "two lists",
        sheet: b"%%\ns : c c ;\nc : 'c' c | 'd' ;\n",
        layout: b"%start s\n%%\ns : c c { $1 $2 } ;\nc : 'c' c { $1 $2 } ;\nc : 'd' { $1 } ;\n",
    },
    Layout {
        name: "comments, escapes, templates and marks",
        sheet: b"/* words */ %token LET 'let' // one word\n%start p\n%%\np : p d { $1 \"\\n\" $2 } | d ;\nd : LET 'x\\'' { #2 \" \\\"\" } %declares 02 ;\n",
        layout: b"%token LET 'let'\n%start p\n%%\np : p d { $1 \"\\x0a\" $2 } ;\np : d { $1 } ;\nd : LET 'x\\'' { #2 \" \\\"\" } %declares 2 ;\n",
    },
    Layout {
        name: "a start that isn't the first name, an empty right side, and a rest",
        sheet: b"%start t\r\n%%\r\ns : ;\r\nt : s 'a' t { } | 'b' ;\r\n%% the rest ' is not read",
        layout: b"%start t\n%%\ns : { } ;\nt : s 'a' t { } ;\nt : 'b' { $1 } ;\n",
    },
    Layout {
        name: "a literal by its name",
        sheet: b"%token P '+'\n%%\ne : e '+' 'n' | P ;\n",
        layout: b"%token P '+'\n%start e\n%%\ne : e P 'n' { $1 $2 $3 } ;\ne : P { $1 } ;\n",
    },
    Layout {
        name: "bytes above 0x7E",
        sheet: b"%token E '\xc3\xa9\\x00'\n%%\ns : E { \"\xff\" } ;\n",
        layout: b"%token E '\\xc3\\xa9\\x00'\n%start s\n%%\ns : E { \"\\xff\" } ;\n",
    },
    Layout {
        name: "a pattern, and a literal among what it matches",
        sheet: b"%token ID /[a-z]+/\n%%\ns : 'if' { \"K\" } | ID { \"I\" $1 } ;\n",
        layout: b"%token ID /[a-z]+/\n%start s\n%%\ns : 'if' { \"K\" } ;\ns : ID { \"I\" $1 } ;\n",
    },
    Layout {
        name: "no conflict, as the states of one core stay apart",
        sheet: b"%%\ns : 'a' x 'c' | 'a' y 'd' | 'b' y 'c' | 'b' x 'd' ;\nx : 'e' { \"x\" } ;\ny : 'e' { \"y\" } ;\n",
        layout: b"%start s\n%%\ns : 'a' x 'c' { $1 $2 $3 } ;\ns : 'a' y 'd' { $1 $2 $3 } ;\ns : 'b' y 'c' { $1 $2 $3 } ;\ns : 'b' x 'd' { $1 $2 $3 } ;\nx : 'e' { \"x\" } ;\ny : 'e' { \"y\" } ;\n",
    },
];

#[test]
fn layouts_are_printed(rt: HostRuntime) -> Result<(), Fail> {
    for row in &LAYOUTS {
        let sheet = Vec::from_slice(rt.alloc(), row.sheet)?;
        let ending = answer_of(&rt, rt.alloc(), "check s", sheet, Vec::new(rt.alloc()))?;
        assert!(rt; ending.is(0, row.layout, b""), "{}", row.name);
        let again = Vec::from_slice(rt.alloc(), row.layout)?;
        let ending = answer_of(&rt, rt.alloc(), "check s", again, Vec::new(rt.alloc()))?;
        assert!(rt; ending.is(0, row.layout, b""), "{}, again", row.name);
    }
    Ok(())
}

/// A sheet, and what is said of its first fault.
struct Fault {
    name: &'static str,
    sheet: &'static [u8],
    said: &'static [u8],
}

static FAULTS: [Fault; 29] = [
    Fault {
        name: "a bad byte before a fault of syntax",
        sheet: b"%%\n\x01 ?\n",
        said: b"sheet fault 1: line 2: bad byte\n",
    },
    Fault {
        name: "a fault of syntax before a bad byte",
        sheet: b"%%\n? \x01\n",
        said: b"sheet fault 2: line 2: syntax\n",
    },
    Fault {
        name: "no semicolon",
        sheet: b"%%\ns : 'a'\n",
        said: b"sheet fault 2: line 2: syntax\n",
    },
    Fault {
        name: "a mark before a template",
        sheet: b"%%\ns : 'a' %declares 1 { } ;\n",
        said: b"sheet fault 2: line 2: syntax\n",
    },
    Fault {
        name: "a comment without an end",
        sheet: b"%%\ns : 'a' ;\n/*/ ",
        said: b"sheet fault 2: line 3: syntax\n",
    },
    Fault {
        name: "a pattern before a fault of syntax",
        sheet: b"%token A /a/\n?\n",
        said: b"sheet fault 2: line 2: syntax\n",
    },
    Fault {
        name: "a literal with a line feed",
        sheet: b"%%\ns : 'a\\n' ;\n",
        said: b"sheet fault 3: line 2: bad pattern\n",
    },
    Fault {
        name: "an empty literal in a right side",
        sheet: b"%%\ns : '' ;\n",
        said: b"sheet fault 4: line 2: pattern matches the empty text\n",
    },
    Fault {
        name: "a token declared again",
        sheet: b"%token A 'a'\n%token A 'b'\n%%\ns : A ;\n",
        said: b"sheet fault 5: line 2: redeclared\n",
    },
    Fault {
        name: "a second start",
        sheet: b"%start s\n%start s\n%%\ns : 'a' ;\n",
        said: b"sheet fault 5: line 2: redeclared\n",
    },
    Fault {
        name: "a start without a rule",
        sheet: b"%start t\n%%\ns : 'a' ;\n",
        said: b"sheet fault 6: line 1: unknown symbol\n",
    },
    Fault {
        name: "no rules",
        sheet: b"%%\n",
        said: b"sheet fault 7: no rules\n",
    },
    Fault {
        name: "no rules, and a token declared again",
        sheet: b"%token A 'a'\n%token A 'b'\n%%\n",
        said: b"sheet fault 7: no rules\n",
    },
    Fault {
        name: "a place behind the right side",
        sheet: b"%%\ns : 'a' { $2 } ;\n",
        said: b"sheet fault 8: line 2: place out of range\n",
    },
    Fault {
        name: "place 0 twice",
        sheet: b"%%\ns : 'a' { $0 $0 } ;\n",
        said: b"sheet fault 8: line 2: place out of range\n",
    },
    Fault {
        name: "a place used twice, a name that is not known, and a useless name",
        sheet: b"%token A 'a'\n%token B 'b'\n%start s\n%%\ns : A s\n  | B\n  ;\nt : A B\n    { $1 $1 }\n  ;\nu : u\n  | zz\n  ;\n",
        said: b"sheet fault 9: line 9: place used twice\n",
    },
    Fault {
        name: "a name that is not known, and a useless name",
        sheet: b"%token A 'a'\n%token B 'b'\n%start s\n%%\ns : A s\n  | B\n  ;\nt : A B\n    { $1 $2 }\n  ;\nu : u\n  | zz\n  ;\n",
        said: b"sheet fault 6: line 12: unknown symbol\n",
    },
    Fault {
        name: "a name without a token list, and one that isn't reached",
        sheet: b"%token A 'a'\n%token B 'b'\n%start s\n%%\ns : A s\n  | B\n  ;\nt : A B\n    { $1 $2 }\n  ;\nu : u\n  | u\n  ;\n",
        said: b"sheet fault 12: unproductive: u\n",
    },
    Fault {
        name: "a place declared twice",
        sheet: b"%%\ns : 'a' 'b' %declares 1\n%declares 2 %declares\n1 ;\n",
        said: b"sheet fault 9: line 4: place used twice\n",
    },
    Fault {
        name: "the number of a name's bytes",
        sheet: b"%%\ns : t { #1 } ;\nt : 'a' ;\n",
        said: b"sheet fault 10: line 2: not a token\n",
    },
    Fault {
        name: "a name that is declared",
        sheet: b"%%\ns : t %declares 1 ;\nt : 'a' ;\n",
        said: b"sheet fault 10: line 2: not a token\n",
    },
    Fault {
        name: "21 symbols in the second right side",
        sheet: b"%%\ns : | s s s s s s s s s s s s s s s s s s s s s ;\n",
        said: b"sheet fault 11: too large: right side 21\n",
    },
    Fault {
        name: "a name that isn't reached",
        sheet: b"%%\ns : 'a' ;\nt : 'b' ;\n",
        said: b"sheet fault 13: unreachable: t\n",
    },
    Fault {
        name: "an empty tree of 2,047 nodes",
        sheet: b"%%\na0 : a1 a1 ;\na1 : a2 a2 ;\na2 : a3 a3 ;\na3 : a4 a4 ;\na4 : a5 a5 ;\na5 : a6 a6 ;\na6 : a7 a7 ;\na7 : a8 a8 ;\na8 : a9 a9 ;\na9 : a10 a10 ;\na10 : ;\n",
        said: b"sheet fault 14: empty tree too large: a0\n",
    },
    Fault {
        name: "one line without a semicolon",
        sheet: b"%%\ns : 'a'",
        said: b"sheet fault 2: line 2: syntax\n",
    },
    Fault {
        name: "the left side is a token",
        sheet: b"%token A 'a'\n%%\ns : A ;\nA : 'b' ;\n",
        said: b"sheet fault 5: line 4: redeclared\n",
    },
    Fault {
        name: "a token that may be shifted, or end a rule before it",
        sheet: b"%%\ns : 'i' s | 'i' s 'e' s | 'x' ;\n",
        said: b"sheet fault 16: conflict in state 7 on 'e'\n  s : 'i' s . , 'e'\n  s : 'i' s . 'e' s , 'e'\n",
    },
    Fault {
        name: "a rule of its own name alone",
        sheet: b"%%\ns : s | 'a' ;\n",
        said: b"sheet fault 16: conflict in state 2 on end of text\n  s : s . , end of text\n  $accept : s . , end of text\n",
    },
    Fault {
        name: "two rules of one right side",
        sheet: b"%%\ns : x 'b' | y 'b' ;\nx : 'a' ;\ny : 'a' ;\n",
        said: b"sheet fault 16: conflict in state 1 on 'b'\n  x : 'a' . , 'b'\n  y : 'a' . , 'b'\n",
    },
];

#[test]
fn first_faults_are_said(rt: HostRuntime) -> Result<(), Fail> {
    for row in &FAULTS {
        let sheet = Vec::from_slice(rt.alloc(), row.sheet)?;
        let ending = answer_of(&rt, rt.alloc(), "check s", sheet, Vec::new(rt.alloc()))?;
        assert!(rt; ending.is(3, b"", row.said), "{}", row.name);
    }
    Ok(())
}

/// The sheet of one name with so many rules, each of a literal of its own.
fn sheet_of_literals(alloc: Global, count: u32) -> Result<Vec<u8>, AllocError> {
    let mut sheet = Vec::from_slice(alloc, b"%%\ns : 'a0'".as_slice())?;
    for number in 1..count {
        let alternative = format!(in alloc; " | 'a{number}'")?;
        sheet.extend_from_slice(alternative.as_bytes())?;
    }
    sheet.extend_from_slice(b" ;\n")?;
    Ok(sheet)
}

#[test]
fn tokens_are_counted(rt: HostRuntime) -> Result<(), Fail> {
    let most = sheet_of_literals(rt.alloc(), 250)?;
    let ending = answer_of(&rt, rt.alloc(), "check s", most, Vec::new(rt.alloc()))?;
    assert!(rt; ending.status == 0, "250 literals");
    let more = sheet_of_literals(rt.alloc(), 251)?;
    let ending = answer_of(&rt, rt.alloc(), "check s", more, Vec::new(rt.alloc()))?;
    assert!(rt;
        ending.is(3, b"", b"sheet fault 11: too large: tokens 251\n"),
        "251 literals"
    );
    Ok(())
}

#[test]
fn a_missing_sheet_is_a_read_fault(rt: HostRuntime) -> Result<(), Fail> {
    let shelf = shelf_of(rt.alloc(), b"", b"", &[])?;
    let out = sink_of(rt.alloc(), ROOM, ROOM, &[])?;
    let err = sink_of(rt.alloc(), ROOM, ROOM, &[])?;
    let ending = ending_of(&rt, rt.alloc(), "check x", shelf, out, err)?;
    assert!(rt; ending.is(4, b"", b"read fault\n"));
    Ok(())
}

#[test]
fn unnamed_literals_are_listed(rt: HostRuntime) -> Result<(), Fail> {
    let sheet = Vec::from_slice(rt.alloc(), b"%%\ns : 'b' s | 'a' ;\n".as_slice())?;
    let text = Vec::from_slice(rt.alloc(), b"ab\n".as_slice())?;
    let ending = answer_of(&rt, rt.alloc(), "tokens s t", sheet, text)?;
    assert!(rt; ending.is(0, b"1 1 1 'a'\n1 2 1 'b'\n1 end of text\n", b""));
    Ok(())
}
