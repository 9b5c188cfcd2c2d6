//! Rows of the pattern language: what a text spells, in its normal spelling, or why it is refused.

use pattern_data::{Pattern, PatternFault};
use std::alloc::Global;
use std::test::Fail;

/// What a row answers.
#[derive(Clone, Copy)]
enum Due {
    /// A pattern with this normal spelling.
    Spells(&'static [u8]),
    Syntax,
    MatchesEmpty,
}

struct PatternRow {
    name: &'static str,
    text: &'static [u8],
    due: Due,
}

static ROWS: [PatternRow; 66] = [
    PatternRow {
        name: "a byte",
        text: b"a",
        due: Due::Spells(b"a"),
    },
    PatternRow {
        name: "bytes that are not special",
        text: b"^$\"{} -,",
        due: Due::Spells(b"^$\"{} -,"),
    },
    PatternRow {
        name: "special bytes behind a backslash",
        text: b"\\.\\[\\]\\(\\)\\*\\+\\?\\|\\\\\\/",
        due: Due::Spells(b"\\.\\[\\]\\(\\)\\*\\+\\?\\|\\\\\\/"),
    },
    PatternRow {
        name: "escapes of letters and by digits",
        text: b"\\t\\r\\x41\\xfF\\x00",
        due: Due::Spells(b"\\x09\\x0dA\\xff\\x00"),
    },
    PatternRow {
        name: "a backslash before punctuation that is not special",
        text: b"\\-\\~\\^",
        due: Due::Spells(b"-~^"),
    },
    PatternRow {
        name: "bytes outside of ASCII",
        text: b"\x7f\x80\xff\x01",
        due: Due::Spells(b"\\x7f\\x80\\xff\\x01"),
    },
    PatternRow {
        name: "every byte",
        text: b".",
        due: Due::Spells(b"."),
    },
    PatternRow {
        name: "all bytes but one, and that one",
        text: b"[^\\x0b]|[\\x0b]",
        due: Due::Spells(b"[\\x00-\\x09\\x0c-\\xff]|\\x0b"),
    },
    PatternRow {
        name: "all bytes but the line feed by a range",
        text: b"[\\x00-\\xff]",
        due: Due::Spells(b"."),
    },
    PatternRow {
        name: "a class of runs",
        text: b"[a-z][a-z0-9]*",
        due: Due::Spells(b"[a-z][0-9a-z]*"),
    },
    PatternRow {
        name: "blanks",
        text: b"[ \\t\\r]+",
        due: Due::Spells(b"[\\x09\\x0d\\x20]+"),
    },
    PatternRow {
        name: "a negated class",
        text: b"[^a]",
        due: Due::Spells(b"[\\x00-\\x09\\x0b-\\x60b-\\xff]"),
    },
    PatternRow {
        name: "one, two and three in a row",
        text: b"[a][ab][abc][cab]",
        due: Due::Spells(b"a[ab][a-c][a-c]"),
    },
    PatternRow {
        name: "a range over the line feed",
        text: b"[\\t-\\r]",
        due: Due::Spells(b"[\\x09\\x0b-\\x0d]"),
    },
    PatternRow {
        name: "special bytes in a class",
        text: b"[[][/][.*]",
        due: Due::Spells(b"\\[\\/[\\x2a\\x2e]"),
    },
    PatternRow {
        name: "a bracket at the end of a range",
        text: b"[!-\\]]",
        due: Due::Spells(b"[\\x21-\\x5d]"),
    },
    PatternRow {
        name: "a dash at the end",
        text: b"[a-]",
        due: Due::Spells(b"[\\x2da]"),
    },
    PatternRow {
        name: "a dash in front",
        text: b"[-a]",
        due: Due::Spells(b"[\\x2da]"),
    },
    PatternRow {
        name: "a range from a dash",
        text: b"[--a]",
        due: Due::Spells(b"[\\x2d-a]"),
    },
    PatternRow {
        name: "a dash behind a range",
        text: b"[a-b-c]",
        due: Due::Spells(b"[\\x2da-c]"),
    },
    PatternRow {
        name: "a caret that is not in front",
        text: b"[a^][\\^]",
        due: Due::Spells(b"[\\x5ea]^"),
    },
    PatternRow {
        name: "brackets that say nothing",
        text: b"((a))((b)+)",
        due: Due::Spells(b"ab+"),
    },
    PatternRow {
        name: "a sequence in a sequence",
        text: b"(ab)c",
        due: Due::Spells(b"(ab)c"),
    },
    PatternRow {
        name: "alternatives in alternatives",
        text: b"(a|b)|c",
        due: Due::Spells(b"(a|b)|c"),
    },
    PatternRow {
        name: "alternatives in a sequence",
        text: b"a(b|c)",
        due: Due::Spells(b"a(b|c)"),
    },
    PatternRow {
        name: "a sequence among alternatives",
        text: b"(ab)|c|d",
        due: Due::Spells(b"ab|c|d"),
    },
    PatternRow {
        name: "repetitions",
        text: b"a+(ab)+(a+)+(a|b)+[ab]+b?c*",
        due: Due::Spells(b"a+(ab)+(a+)+(a|b)+[ab]+b?c*"),
    },
    PatternRow {
        name: "fifty brackets",
        text: b"((((((((((((((((((((((((((((((((((((((((((((((((((a))))))))))))))))))))))))))))))))))))))))))))))))))",
        due: Due::Spells(b"a"),
    },
    PatternRow {
        name: "fifty brackets that stay",
        text: b"((((((((((((((((((((((((((((((((((((((((((((((((((a+)+)+)+)+)+)+)+)+)+)+)+)+)+)+)+)+)+)+)+)+)+)+)+)+)+)+)+)+)+)+)+)+)+)+)+)+)+)+)+)+)+)+)+)+)+)+)+)+)+)+",
        due: Due::Spells(
            b"((((((((((((((((((((((((((((((((((((((((((((((((((a+)+)+)+)+)+)+)+)+)+)+)+)+)+)+)+)+)+)+)+)+)+)+)+)+)+)+)+)+)+)+)+)+)+)+)+)+)+)+)+)+)+)+)+)+)+)+)+)+)+)+",
        ),
    },
    PatternRow {
        name: "no bytes",
        text: b"",
        due: Due::Syntax,
    },
    PatternRow {
        name: "no alternative",
        text: b"a|",
        due: Due::Syntax,
    },
    PatternRow {
        name: "none in front",
        text: b"|a",
        due: Due::Syntax,
    },
    PatternRow {
        name: "none between",
        text: b"a||b",
        due: Due::Syntax,
    },
    PatternRow {
        name: "nothing in brackets",
        text: b"()",
        due: Due::Syntax,
    },
    PatternRow {
        name: "a bracket that stays open",
        text: b"(a",
        due: Due::Syntax,
    },
    PatternRow {
        name: "a bracket that closes nothing",
        text: b"a)",
        due: Due::Syntax,
    },
    PatternRow {
        name: "an operator in front",
        text: b"*a",
        due: Due::Syntax,
    },
    PatternRow {
        name: "an operator behind a bar",
        text: b"a|+",
        due: Due::Syntax,
    },
    PatternRow {
        name: "two operators",
        text: b"a+?",
        due: Due::Syntax,
    },
    PatternRow {
        name: "two stars",
        text: b"a**",
        due: Due::Syntax,
    },
    PatternRow {
        name: "a closing bracket of a class",
        text: b"]",
        due: Due::Syntax,
    },
    PatternRow {
        name: "a slash",
        text: b"/",
        due: Due::Syntax,
    },
    PatternRow {
        name: "a line feed",
        text: b"a\n",
        due: Due::Syntax,
    },
    PatternRow {
        name: "a line feed in a class",
        text: b"[a\n]",
        due: Due::Syntax,
    },
    PatternRow {
        name: "an escaped line feed",
        text: b"\\n",
        due: Due::Syntax,
    },
    PatternRow {
        name: "the line feed by digits",
        text: b"\\x0A",
        due: Due::Syntax,
    },
    PatternRow {
        name: "the line feed in a class",
        text: b"[a\\x0a]",
        due: Due::Syntax,
    },
    PatternRow {
        name: "a letter behind a backslash",
        text: b"\\q",
        due: Due::Syntax,
    },
    PatternRow {
        name: "a digit behind a backslash",
        text: b"\\0",
        due: Due::Syntax,
    },
    PatternRow {
        name: "a backslash at the end",
        text: b"a\\",
        due: Due::Syntax,
    },
    PatternRow {
        name: "one digit",
        text: b"\\x4",
        due: Due::Syntax,
    },
    PatternRow {
        name: "no digit",
        text: b"\\xg0",
        due: Due::Syntax,
    },
    PatternRow {
        name: "no member",
        text: b"[]",
        due: Due::Syntax,
    },
    PatternRow {
        name: "no member, negated",
        text: b"[^]",
        due: Due::Syntax,
    },
    PatternRow {
        name: "a class that stays open",
        text: b"[a",
        due: Due::Syntax,
    },
    PatternRow {
        name: "a class with a dash at its end that stays open",
        text: b"[a-",
        due: Due::Syntax,
    },
    PatternRow {
        name: "ends in the wrong order",
        text: b"[b-a]",
        due: Due::Syntax,
    },
    PatternRow {
        name: "a range down to a bracket",
        text: b"[a-\\]]",
        due: Due::Syntax,
    },
    PatternRow {
        name: "a class of no byte",
        text: b"[^\\x00-\\xff]",
        due: Due::Syntax,
    },
    PatternRow {
        name: "fifty-one brackets",
        text: b"(((((((((((((((((((((((((((((((((((((((((((((((((((a)))))))))))))))))))))))))))))))))))))))))))))))))))",
        due: Due::Syntax,
    },
    PatternRow {
        name: "any number",
        text: b"a*",
        due: Due::MatchesEmpty,
    },
    PatternRow {
        name: "one or none",
        text: b"(ab)?",
        due: Due::MatchesEmpty,
    },
    PatternRow {
        name: "a sequence that may be empty",
        text: b"a*b?",
        due: Due::MatchesEmpty,
    },
    PatternRow {
        name: "an alternative that may be empty",
        text: b"a|b*|c",
        due: Due::MatchesEmpty,
    },
    PatternRow {
        name: "repeated at least once",
        text: b"(a?)+",
        due: Due::MatchesEmpty,
    },
    PatternRow {
        name: "any number of any number",
        text: b"(a*)*",
        due: Due::MatchesEmpty,
    },
];

/// Whether this is the pattern's normal spelling.
fn is_spelled(alloc: Global, pattern: &Pattern, spelling: &[u8]) -> bool {
    match pattern.print(alloc) {
        Ok(text) => text.as_slice() == spelling,
        Err(_) => false,
    }
}

fn spells(alloc: Global, text: &[u8], spelling: &[u8]) -> bool {
    match Pattern::read(alloc, text) {
        Ok(pattern) => is_spelled(alloc, &pattern, spelling),
        Err(_) => false,
    }
}

fn answers(alloc: Global, row: &PatternRow) -> bool {
    match row.due {
        Due::Spells(spelling) => spells(alloc, row.text, spelling)
            && spells(alloc, spelling, spelling),
        Due::Syntax => matches!(Pattern::read(alloc, row.text), Err(PatternFault::Syntax)),
        Due::MatchesEmpty => {
            matches!(
                Pattern::read(alloc, row.text),
                Err(PatternFault::MatchesEmpty)
            )
        }
    }
}

#[test]
fn reads_and_writes_patterns(rt: HostRuntime) -> Result<(), Fail> {
    for row in &ROWS {
        assert!(rt; answers(rt.alloc(), row), "{}", row.name);
    }
    Ok(())
}
