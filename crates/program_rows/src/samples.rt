//! Rows of `gen` and `load`: sample texts, and what is answered where there is none.

use crate::memory::answer_of;
use std::test::Fail;

/// Words that are parted by spaces, a sheet under the name `s`, and what the call answers.
struct Sample {
    name: &'static str,
    words: &'static str,
    sheet: &'static [u8],
    status: u8,
    out: &'static [u8],
    err: &'static [u8],
}

/// Two rules, of which a number picks one.
const TWO: &[u8] = b"%%\ns : 'b' { \"B\" } | 'a' s { \"A\" $2 } ;\n";

const ONE: &[u8] = b"%%\ns : 'x' ;\n";

/// A token that declares a name.
const MARKED: &[u8] = b"%token ID /[a-z]/\n%%\ns : ID %declares 1 ;\n";

/// Each string of the second token is one of the first.
const SHARED: &[u8] = b"%token A /[a-z]+/\n%token B /x/\n%%\ns : B | A B ;\n";

/// Lines of 128 bytes that fill a text, and one more.
const LONG: &[u8] =
    b"%%\nz : a 'x' ;\na : b b b b b b b b b b b b b b b b ;\nb : c c c c c c c c c c c c c c c c ;\nc : d d d d d d d d d d d d d d d d ;\nd : e e e e e e e e e e e e e e e e ;\ne : 'xxxxxxxxxxxxxxxxxxxxxxxxxxxxxxxxxxxxxxxxxxxxxxxxxxxxxxxxxxxxxxxxxxxxxxxxxxxxxxxxxxxxxxxxxxxxxxxxxxxxxxxxxxxxxxxxxxxxxxxxxxxxxxx' ;\n";

/// A name without a token list.
const REFUSED: &[u8] = b"%%\ns : 'a' | t ;\nt : t 'x' ;\n";

static SAMPLES: [Sample; 21] = [
    Sample {
        name: "the sample of a number",
        words: "gen s --from 0 --size 1",
        sheet: TWO,
        status: 0,
        out: b"a\nb\n",
        err: b"",
    },
    Sample {
        name: "closing rules alone are not asked for",
        words: "gen s --from 0 --size 0",
        sheet: TWO,
        status: 2,
        out: b"",
        err: b"bad words\n",
    },
    Sample {
        name: "as many choices as there may be",
        words: "gen s --from 999999999 --size 1000000",
        sheet: ONE,
        status: 0,
        out: b"x\n",
        err: b"",
    },
    Sample {
        name: "one choice more",
        words: "gen s --from 0 --size 1000001",
        sheet: ONE,
        status: 2,
        out: b"",
        err: b"bad words\n",
    },
    Sample {
        name: "leading zeros",
        words: "gen s --from 000 --size 000000001",
        sheet: TWO,
        status: 0,
        out: b"a\nb\n",
        err: b"",
    },
    Sample {
        name: "ten digits",
        words: "gen s --from 0000000000 --size 1",
        sheet: TWO,
        status: 2,
        out: b"",
        err: b"bad words\n",
    },
    Sample {
        name: "a sign",
        words: "gen s --from +0 --size 1",
        sheet: TWO,
        status: 2,
        out: b"",
        err: b"bad words\n",
    },
    Sample {
        name: "no number",
        words: "gen s --from= --size 1",
        sheet: TWO,
        status: 2,
        out: b"",
        err: b"bad words\n",
    },
    Sample {
        name: "options in one word, in another order, and the end of options",
        words: "gen --size=1 --from=0 -- s",
        sheet: TWO,
        status: 0,
        out: b"a\nb\n",
        err: b"",
    },
    Sample {
        name: "a missing number",
        words: "gen s --size 1",
        sheet: TWO,
        status: 2,
        out: b"",
        err: b"bad words\n",
    },
    Sample {
        name: "a missing size",
        words: "gen s --from 0",
        sheet: TWO,
        status: 2,
        out: b"",
        err: b"bad words\n",
    },
    Sample {
        name: "a number that is told twice",
        words: "gen s --from 0 --size 1 --from 0",
        sheet: TWO,
        status: 2,
        out: b"",
        err: b"bad words\n",
    },
    Sample {
        name: "a text that no sample reads",
        words: "gen s t --from 0 --size 1",
        sheet: TWO,
        status: 2,
        out: b"",
        err: b"bad words\n",
    },
    Sample {
        name: "a sample gives no choice",
        words: "gen s --from 0 --size 1 --emit names",
        sheet: TWO,
        status: 2,
        out: b"",
        err: b"bad words\n",
    },
    Sample {
        name: "a token that no word scans as",
        words: "gen s --from 0 --size 1",
        sheet: SHARED,
        status: 8,
        out: b"",
        err: b"no sample for B\n",
    },
    Sample {
        name: "the same, where it is run",
        words: "load s --from 0 --size 1",
        sheet: SHARED,
        status: 8,
        out: b"",
        err: b"no sample for B\n",
    },
    Sample {
        name: "more bytes than a text may have",
        words: "gen s --from 0 --size 1",
        sheet: LONG,
        status: 7,
        out: b"",
        err: b"text too long\n",
    },
    Sample {
        name: "the same, where it is run",
        words: "load s --from 0 --size 1",
        sheet: LONG,
        status: 7,
        out: b"",
        err: b"text too long\n",
    },
    Sample {
        name: "a sheet that is refused",
        words: "gen s --from 0 --size 1",
        sheet: REFUSED,
        status: 3,
        out: b"",
        err: b"sheet fault 12: unproductive: t\n",
    },
    Sample {
        name: "a sample that is run",
        words: "load s --from 0 --size 1",
        sheet: TWO,
        status: 0,
        out: b"AB",
        err: b"",
    },
    Sample {
        name: "the names of a sample",
        words: "load s --from 0 --size 1 --emit names",
        sheet: MARKED,
        status: 0,
        out: b"1 1 1 a\n",
        err: b"",
    },
];

#[test]
fn gives_sample_texts_and_runs_them(rt: HostRuntime) -> Result<(), Fail> {
    let alloc = rt.alloc();
    for row in &SAMPLES {
        let sheet = Vec::from_slice(alloc, row.sheet)?;
        let ending = answer_of(&rt, alloc, row.words, sheet, Vec::new(alloc))?;
        assert!(rt;
            ending.is(row.status, row.out, row.err),
            "{}: {ending:?}",
            row.name
        );
    }
    Ok(())
}
