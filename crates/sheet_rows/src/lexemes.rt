//! Rows of the lexemes of a sheet, and of the faults that stand in place of one.

ghost use Rattle.std.specs.Prelude.{◌≤◌};

use lexeme_theory::{Directive, Lexeme, Single};
use sheet_lexemes::{Cursor, LexFault, Read, next_lexeme};
use std::alloc::Global;
use std::test::Fail;

/// A lexeme as a row states it.
#[derive(Clone, Copy)]
enum Stated {
    Name(&'static [u8]),
    Number(u32),
    Fold(u32),
    NumberOf(u32),
    Quoted(&'static [u8]),
    Text(&'static [u8]),
    Pattern(&'static [u8]),
    Directive(Directive),
    Mark,
    Single(Single),
}

/// What stands behind the lexemes, with its line.
#[derive(Clone, Copy, PartialEq)]
enum Last {
    End(usize),
    BadByte(usize),
    Syntax(usize),
    NoMemory,
}

/// A sheet, and its lexemes with their lines.
struct LexemeRow {
    name: &'static str,
    sheet: &'static [u8],
    lexemes: &'static [(usize, Stated)],
    last: Last,
}

static ROWS: [LexemeRow; 16] = [
    LexemeRow {
        name: "no bytes",
        sheet: b"",
        lexemes: &[],
        last: Last::End(1),
    },
    LexemeRow {
        name: "names, numbers and places",
        sheet: b"a_1 12 $3 #4",
        lexemes: &[
            (1, Stated::Name(b"a_1")),
            (1, Stated::Number(12)),
            (1, Stated::Fold(3)),
            (1, Stated::NumberOf(4)),
        ],
        last: Last::End(1),
    },
    LexemeRow {
        name: "directives, the mark and signs",
        sheet: b"%token %skip\n%start %declares\n%% : | ; { }\n",
        lexemes: &[
            (1, Stated::Directive(Directive::Token)),
            (1, Stated::Directive(Directive::Skip)),
            (2, Stated::Directive(Directive::Start)),
            (2, Stated::Directive(Directive::Declares)),
            (3, Stated::Mark),
            (3, Stated::Single(Single::Colon)),
            (3, Stated::Single(Single::Bar)),
            (3, Stated::Single(Single::Semicolon)),
            (3, Stated::Single(Single::LeftBrace)),
            (3, Stated::Single(Single::RightBrace)),
        ],
        last: Last::End(3),
    },
    LexemeRow {
        name: "escapes",
        sheet: b"'\\n\\t\\r\\x4a\\'' \"\\\"\\\\\\xfF\"",
        lexemes: &[
            (1, Stated::Quoted(b"\n\t\rJ'")),
            (1, Stated::Text(b"\"\\\xff")),
        ],
        last: Last::End(1),
    },
    LexemeRow {
        name: "a pattern stays as written",
        sheet: b"/[a-z]\\/\\n/",
        lexemes: &[(1, Stated::Pattern(b"[a-z]\\/\\n"))],
        last: Last::End(1),
    },
    LexemeRow {
        name: "comments hold any byte",
        sheet: b"a//\x01 b\nc/*\x80*\n/*/d",
        lexemes: &[
            (1, Stated::Name(b"a")),
            (2, Stated::Name(b"c")),
            (3, Stated::Name(b"d")),
        ],
        last: Last::End(3),
    },
    LexemeRow {
        name: "a comment without an end, on the line where it begins",
        sheet: b"\na /*/\n\n",
        lexemes: &[(2, Stated::Name(b"a"))],
        last: Last::Syntax(2),
    },
    LexemeRow {
        name: "nine digits",
        sheet: b"999999999",
        lexemes: &[(1, Stated::Number(999_999_999))],
        last: Last::End(1),
    },
    LexemeRow {
        name: "ten digits",
        sheet: b"\n0000000001",
        lexemes: &[],
        last: Last::Syntax(2),
    },
    LexemeRow {
        name: "no directive",
        sheet: b"%tokens",
        lexemes: &[],
        last: Last::Syntax(1),
    },
    LexemeRow {
        name: "a text over two lines",
        sheet: b"'a\n'",
        lexemes: &[],
        last: Last::Syntax(1),
    },
    LexemeRow {
        name: "a wrong escape",
        sheet: b"a '\\q'",
        lexemes: &[(1, Stated::Name(b"a"))],
        last: Last::Syntax(1),
    },
    LexemeRow {
        name: "a bad byte in a text goes before its wrong escape",
        sheet: b"'\\q\x7f'",
        lexemes: &[],
        last: Last::BadByte(1),
    },
    LexemeRow {
        name: "a high byte in a text, and outside one",
        sheet: b"'\x80'\n\x80",
        lexemes: &[(1, Stated::Quoted(b"\x80"))],
        last: Last::BadByte(2),
    },
    LexemeRow {
        name: "what begins no lexeme",
        sheet: b"a\r\n ?",
        lexemes: &[(1, Stated::Name(b"a"))],
        last: Last::Syntax(2),
    },
    LexemeRow {
        name: "a place without a number",
        sheet: b"$ 1",
        lexemes: &[],
        last: Last::Syntax(1),
    },
];

fn is_as_stated(lexeme: &Lexeme, stated: Stated) -> bool {
    match (lexeme, stated) {
        (Lexeme::Name(bytes), Stated::Name(due))
        | (Lexeme::Quoted(bytes), Stated::Quoted(due))
        | (Lexeme::Text(bytes), Stated::Text(due))
        | (Lexeme::Pattern(bytes), Stated::Pattern(due)) => bytes.as_slice() == due,
        (Lexeme::Number(number), Stated::Number(due))
        | (Lexeme::Fold(number), Stated::Fold(due))
        | (Lexeme::NumberOf(number), Stated::NumberOf(due)) => *number == due,
        (Lexeme::Directive(directive), Stated::Directive(due)) => *directive == due,
        (Lexeme::Mark, Stated::Mark) => true,
        (Lexeme::Single(single), Stated::Single(due)) => *single == due,
        _ => false,
    }
}

/// What is read from a place on, which is no further than the end.
fn read_from(alloc: Global, sheet: &[u8], at: usize) -> Result<Read, Last> {
    let from = Cursor::first().moved(sheet, at.min(sheet.len()));
    match next_lexeme(alloc, sheet, from) {
        Ok(read) => Ok(read),
        Err(LexFault::BadByte { line }) => Err(Last::BadByte(line)),
        Err(LexFault::Syntax { line }) => Err(Last::Syntax(line)),
        Err(LexFault::NoMemory) => Err(Last::NoMemory),
    }
}

/// The place behind the row's lexemes, if they stand there, on their lines.
fn behind_lexemes(alloc: Global, row: &LexemeRow) -> Option<usize> {
    let mut place = 0;
    for (line, stated) in row.lexemes {
        match read_from(alloc, row.sheet, place) {
            Ok(
                Read::Lexeme {
                    lexeme,
                    begins,
                    behind,
                },
            ) if begins.line == *line && is_as_stated(&lexeme, *stated) => place = behind.at,
            _ => return None,
        }
    }
    Some(place)
}

/// What stands there, if it is no lexeme.
fn last_from(alloc: Global, sheet: &[u8], at: usize) -> Option<Last> {
    match read_from(alloc, sheet, at) {
        Ok(Read::End(end)) => Some(Last::End(end.line)),
        Ok(Read::Lexeme { .. }) => None,
        Err(last) => Some(last),
    }
}

#[test]
fn reads_the_lexemes_of_sheets(rt: HostRuntime) -> Result<(), Fail> {
    for row in &ROWS {
        let behind = behind_lexemes(rt.alloc(), row).ok_or(row.name)?;
        assert!(rt;
            last_from(rt.alloc(), row.sheet, behind) == Some(row.last),
            "{}",
            row.name
        );
    }
    Ok(())
}
