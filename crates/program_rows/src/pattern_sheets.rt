//! Rows of the commands over sheets with patterns: token lists, normal layouts, and first faults.

use crate::memory::{ROOM, answer_of, ending_of, shelf_of, sink_of};
use std::alloc::{AllocError, Global};
use std::test::Fail;

/// Words, one of which is a literal.
const KEYWORD: &[u8] = b"%token ID /[a-z]+/\n%%\ns : 'if' { \"K\" } | ID { \"I\" $1 } ;\n";

const KEYWORD_LAYOUT: &[u8] =
    b"%token ID /[a-z]+/\n%start s\n%%\ns : 'if' { \"K\" } ;\ns : ID { \"I\" $1 } ;\n";

/// A little language of statements.
const STATEMENTS: &[u8] = b"%token LET 'let'
%token NAME /[a-z][a-z0-9]*/
%token NUM /[0-9]+/
%skip /[ \\t\\r]+/
%start program
%%
program : program stmt { $1 $2 }
        | stmt
        ;
stmt : LET NAME '=' expr ';' { \"new \" #2 \" = \" $4 \"\\n\" } %declares 2
     | NAME '=' expr ';'     { \"set \" #1 \" = \" $3 \"\\n\" }
     ;
expr : expr '+' term { \"(\" $1 \"+\" $3 \")\" }
     | term
     ;
term : term '*' atom { \"(\" $1 \"*\" $3 \")\" }
     | atom
     ;
atom : NUM
     | NAME { \"v\" #1 }
     | '(' expr ')' { $2 }
     ;
";

const STATEMENTS_LAYOUT: &[u8] = b"%token LET 'let'
%token NAME /[a-z][0-9a-z]*/
%token NUM /[0-9]+/
%skip /[\\x09\\x0d\\x20]+/
%start program
%%
program : program stmt { $1 $2 } ;
program : stmt { $1 } ;
stmt : LET NAME '=' expr ';' { \"new \" #2 \" = \" $4 \"\\x0a\" } %declares 2 ;
stmt : NAME '=' expr ';' { \"set \" #1 \" = \" $3 \"\\x0a\" } ;
expr : expr '+' term { \"(\" $1 \"+\" $3 \")\" } ;
expr : term { $1 } ;
term : term '*' atom { \"(\" $1 \"*\" $3 \")\" } ;
term : atom { $1 } ;
atom : NUM { $1 } ;
atom : NAME { \"v\" #1 } ;
atom : '(' expr ')' { $2 } ;
";

/// Sums in brackets.
const SUMS: &[u8] =
    b"%token N /[0-9]+/\n%%\nlist : list e ';' | e ';' ;\ne : e '+' t | t ;\nt : N | '(' e ')' ;\n";

/// A sheet whose spaces are skipped.
const SPACES: &[u8] = b"%skip / +/\n%%\ns : { \"none\" } | s 'x' ;\n";

/// Two patterns that share a string.
const SHARED: &[u8] = b"%token A /[a-z]+/\n%token B /x/\n%%\ns : B | A B ;\n";

/// A sheet, a text, and the text's token list.
struct List {
    name: &'static str,
    sheet: &'static [u8],
    text: &'static [u8],
    list: &'static [u8],
}

static LISTS: [List; 12] = [
    List {
        name: "a literal without a name comes before a pattern",
        sheet: KEYWORD,
        text: b"if\n",
        list: b"1 1 2 'if'\n1 end of text\n",
    },
    List {
        name: "the longer string of a pattern comes before a literal",
        sheet: KEYWORD,
        text: b"iffy\n",
        list: b"1 1 4 ID\n1 end of text\n",
    },
    List {
        name: "a statement",
        sheet: STATEMENTS,
        text: b"let x = 10;\n",
        list: b"1 1 3 LET\n1 5 1 NAME\n1 7 1 '='\n1 9 2 NUM\n1 11 1 ';'\n1 end of text\n",
    },
    List {
        name: "a bad byte, and skips at the end and the beginning of lines",
        sheet: STATEMENTS,
        text: b"x? \n\t=1",
        list: b"1 1 1 NAME\n1 2 1 bad byte\n2 2 1 '='\n2 3 1 NUM\n2 end of text\n",
    },
    List {
        name: "skips alone",
        sheet: SPACES,
        text: b"     ",
        list: b"1 end of text\n",
    },
    List {
        name: "a token between skips",
        sheet: SPACES,
        text: b" x  \n",
        list: b"1 2 1 'x'\n1 end of text\n",
    },
    List {
        name: "a sum that is broken off",
        sheet: SUMS,
        text: b"(1;\n",
        list: b"1 1 1 '('\n1 2 1 N\n1 3 1 ';'\n1 end of text\n",
    },
    List {
        name: "two lines of a sum",
        sheet: SUMS,
        text: b"(12\n3+",
        list: b"1 1 1 '('\n1 2 2 N\n2 1 1 N\n2 2 1 '+'\n2 end of text\n",
    },
    List {
        name: "of two patterns with one string the first that is declared",
        sheet: SHARED,
        text: b"x xy\n",
        list: b"1 1 1 A\n1 2 1 bad byte\n1 3 2 A\n1 end of text\n",
    },
    List {
        name: "a skip that is declared before a token",
        sheet: b"%skip /a/\n%token A /a/\n%token B /b/\n%%\ns : A B ;\n",
        text: b"aba\n",
        list: b"1 2 1 B\n1 end of text\n",
    },
    List {
        name: "a token that is declared before a skip",
        sheet: b"%token A /a/\n%skip /a/\n%token B /b/\n%%\ns : A B ;\n",
        text: b"aba\n",
        list: b"1 1 1 A\n1 2 1 B\n1 3 1 A\n1 end of text\n",
    },
    List {
        name: "no class has the line feed",
        sheet: b"%token A /[^b]+/\n%%\ns : A ;\n",
        text: b"ac\nba\n",
        list: b"1 1 2 A\n2 1 1 bad byte\n2 2 1 A\n2 end of text\n",
    },
];

#[test]
fn tokens_of_patterns_are_listed(rt: HostRuntime) -> Result<(), Fail> {
    for row in &LISTS {
        let sheet = Vec::from_slice(rt.alloc(), row.sheet)?;
        let text = Vec::from_slice(rt.alloc(), row.text)?;
        let ending = answer_of(&rt, rt.alloc(), "tokens s t", sheet, text)?;
        assert!(rt; ending.is(0, row.list, b""), "{}: {ending:?}", row.name);
    }
    Ok(())
}

/// A sheet, and its normal layout.
struct Layout {
    name: &'static str,
    sheet: &'static [u8],
    layout: &'static [u8],
}

static LAYOUTS: [Layout; 7] = [
    Layout {
        name: "a word and a pattern",
        sheet: KEYWORD,
        layout: KEYWORD_LAYOUT,
    },
    Layout {
        name: "statements",
        sheet: STATEMENTS,
        layout: STATEMENTS_LAYOUT,
    },
    Layout {
        name: "sums",
        sheet: SUMS,
        layout: b"%token N /[0-9]+/\n%start list\n%%\nlist : list e ';' { $1 $2 $3 } ;\nlist : e ';' { $1 $2 } ;\ne : e '+' t { $1 $2 $3 } ;\ne : t { $1 } ;\nt : N { $1 } ;\nt : '(' e ')' { $1 $2 $3 } ;\n",
    },
    Layout {
        name: "skipped spaces",
        sheet: SPACES,
        layout: b"%skip / +/\n%start s\n%%\ns : { \"none\" } ;\ns : s 'x' { $1 $2 } ;\n",
    },
    Layout {
        name: "a shared string",
        sheet: SHARED,
        layout: b"%token A /[a-z]+/\n%token B /x/\n%start s\n%%\ns : B { $1 } ;\ns : A B { $1 $2 } ;\n",
    },
    Layout {
        name: "a quoted text",
        sheet: b"%token S /\"([^\"\\\\]|\\\\.)*\"/\n%%\ns : S ;\n",
        layout: b"%token S /\"([\\x00-\\x09\\x0b-\\x21\\x23-\\x5b\\x5d-\\xff]|\\\\.)*\"/\n%start s\n%%\ns : S { $1 } ;\n",
    },
    Layout {
        name: "brackets that are needed, and some that aren't",
        sheet: b"%skip /#.*/\n%token A /((a)(b|c))+(d?)|(\\/)/\n%%\ns : A ;\n",
        layout: b"%skip /#.*/\n%token A /(a(b|c))+d?|\\//\n%start s\n%%\ns : A { $1 } ;\n",
    },
];

#[test]
fn patterns_are_printed(rt: HostRuntime) -> Result<(), Fail> {
    for row in &LAYOUTS {
        for sheet in [row.sheet, row.layout] {
            let sheet = Vec::from_slice(rt.alloc(), sheet)?;
            let ending = answer_of(&rt, rt.alloc(), "check s", sheet, Vec::new(rt.alloc()))?;
            assert!(rt; ending.is(0, row.layout, b""), "{}: {ending:?}", row.name);
        }
    }
    Ok(())
}

/// A sheet, and what is said of its first fault.
struct Fault {
    name: &'static str,
    sheet: &'static [u8],
    said: &'static [u8],
}

static FAULTS: [Fault; 9] = [
    Fault {
        name: "a pattern that has the empty text",
        sheet: b"%token A /a*/\n%%\ns : A ;\n",
        said: b"sheet fault 4: line 1: pattern matches the empty text\n",
    },
    Fault {
        name: "a skip that has the empty text",
        sheet: b"%token A 'a'\n%skip /b?/\n%%\ns : A ;\n",
        said: b"sheet fault 4: line 2: pattern matches the empty text\n",
    },
    Fault {
        name: "an operator behind an operator",
        sheet: b"%token A /a**/\n%%\ns : A ;\n",
        said: b"sheet fault 3: line 1: bad pattern\n",
    },
    Fault {
        name: "the line feed in a pattern, by an escape",
        sheet: b"%token A /a\\n/\n%%\ns : A ;\n",
        said: b"sheet fault 3: line 1: bad pattern\n",
    },
    Fault {
        name: "a bad pattern of a token that is declared again",
        sheet: b"%token A 'a'\n%token A /(/\n%%\ns : A ;\n",
        said: b"sheet fault 3: line 2: bad pattern\n",
    },
    Fault {
        name: "a token that is declared again before a bad pattern",
        sheet: b"%token A 'a'\n%token A /a/\n%skip /(/\n%%\ns : A ;\n",
        said: b"sheet fault 5: line 2: redeclared\n",
    },
    Fault {
        name: "a pattern that isn't closed",
        sheet: b"%token A /a\n%%\ns : A ;\n",
        said: b"sheet fault 2: line 1: syntax\n",
    },
    Fault {
        name: "a bad byte in a pattern",
        sheet: b"%token A /a\x01**/\n%%\ns : A ;\n",
        said: b"sheet fault 1: line 1: bad byte\n",
    },
    Fault {
        name: "a bad pattern, and no rules",
        sheet: b"%token A /a**/\n%%\n",
        said: b"sheet fault 7: no rules\n",
    },
];

#[test]
fn first_faults_of_patterns_are_said(rt: HostRuntime) -> Result<(), Fail> {
    for row in &FAULTS {
        let sheet = Vec::from_slice(rt.alloc(), row.sheet)?;
        let ending = answer_of(&rt, rt.alloc(), "check s", sheet, Vec::new(rt.alloc()))?;
        assert!(rt; ending.is(3, b"", row.said), "{}: {ending:?}", row.name);
    }
    Ok(())
}

/// Some bytes, then a piece so many times, and then more bytes.
fn repeated(
    alloc: Global,
    front: &[u8],
    piece: &[u8],
    count: u32,
    back: &[u8],
) -> Result<Vec<u8>, AllocError> {
    let mut bytes = Vec::from_slice(alloc, front)?;
    for _ in 0..count {
        bytes.extend_from_slice(piece)?;
    }
    bytes.extend_from_slice(back)?;
    Ok(bytes)
}

/// A sheet with a piece so many times, what stands before it and behind it, and the limit that it passes.
struct TooLarge {
    name: &'static str,
    front: &'static [u8],
    piece: &'static [u8],
    count: u32,
    back: &'static [u8],
    said: &'static [u8],
}

static TOO_LARGE: [TooLarge; 4] = [
    TooLarge {
        name: "51 skips",
        front: b"",
        piece: b"%skip / /\n",
        count: 51,
        back: b"%%\ns : 'a' ;\n",
        said: b"sheet fault 11: too large: skips 51\n",
    },
    TooLarge {
        name: "5,001 positions, of a literal and a skip",
        front: b"%skip /",
        piece: b"a",
        count: 4_998,
        back: b"/\n%%\ns : 'abc' ;\n",
        said: b"sheet fault 11: too large: positions 5001\n",
    },
    TooLarge {
        name: "32,769 states",
        front: b"%token A /[ab]*a",
        piece: b"[ab]",
        count: 14,
        back: b"/\n%%\ns : A ;\n",
        said: b"sheet fault 11: too large: scanner states 20001\n",
    },
    TooLarge {
        name: "32,769 states, and a name that isn't reached",
        front: b"%token A /[ab]*a",
        piece: b"[ab]",
        count: 14,
        back: b"/\n%%\ns : A ;\nt : A ;\n",
        said: b"sheet fault 11: too large: scanner states 20001\n",
    },
];

#[test]
fn sheets_with_too_large_patterns_are_refused(rt: HostRuntime) -> Result<(), Fail> {
    for row in &TOO_LARGE {
        let sheet = repeated(rt.alloc(), row.front, row.piece, row.count, row.back)?;
        let ending = answer_of(&rt, rt.alloc(), "check s", sheet, Vec::new(rt.alloc()))?;
        assert!(rt; ending.is(3, b"", row.said), "{}: {ending:?}", row.name);
    }
    Ok(())
}

#[test]
fn a_sheet_of_16385_states_is_printed(rt: HostRuntime) -> Result<(), Fail> {
    let sheet = repeated(
        rt.alloc(),
        b"%token A /[ab]*a",
        b"[ab]",
        13,
        b"/\n%%\ns : A ;\n",
    )?;
    let layout = repeated(
        rt.alloc(),
        b"%token A /[ab]*a",
        b"[ab]",
        13,
        b"/\n%start s\n%%\ns : A { $1 } ;\n",
    )?;
    let ending = answer_of(&rt, rt.alloc(), "check s", sheet, Vec::new(rt.alloc()))?;
    assert!(rt; ending.is(0, &layout, b""), "{ending:?}");
    Ok(())
}

#[test]
fn too_many_states_come_before_a_missing_text(rt: HostRuntime) -> Result<(), Fail> {
    let sheet = repeated(
        rt.alloc(),
        b"%token A /[ab]*a",
        b"[ab]",
        14,
        b"/\n%%\ns : A ;\n",
    )?;
    let shelf = shelf_of(rt.alloc(), &sheet, b"", &[])?;
    let out = sink_of(rt.alloc(), ROOM, ROOM, &[])?;
    let err = sink_of(rt.alloc(), ROOM, ROOM, &[])?;
    let ending = ending_of(&rt, rt.alloc(), "tokens s x", shelf, out, err)?;
    let said = b"sheet fault 11: too large: scanner states 20001\n";
    assert!(rt; ending.is(3, b"", said), "{ending:?}");
    Ok(())
}
