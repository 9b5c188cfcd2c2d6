//! Rows of texts: each is parsed in segments under many cuttings and by 1 to 4 workers, and comes to what one parse comes to.

ghost use Rattle.std.specs.Prelude.{◌≡◌, ◌≤◌, IfOk};
ghost use Rattle.plain_parse.specs.Parses.{IsParsed};
ghost use Rattle.segment_counts.specs.Ranges.{CanRun};
ghost use Rattle.run_inputs.specs.Inputs.{IsLanguage, IsSource};

use crate::cuts::{CUTS, Cut, cut_lines};
use crate::walks::are_same;
use lr_base::NoMemory;
use plain_parse::{Parsed, parse_one};
use run_inputs::{Language, Source};
use segment_counts::{Job, count_segments};
use segment_runs::parse_lines;
use std::alloc::Global;
use std::test::Fail;
use std::thread::Threads;

/// The most workers that a text is parsed by.
const WORKERS: u32 = 4;

/// A sheet, the lines of a text of 16 lines, a line that is wrong at each place, and a last line behind which the text can't end.
struct TextRow {
    name: &'static str,
    sheet: &'static [u8],
    lines: [&'static [u8]; 16],
    wrong: &'static [u8],
    open: &'static [u8],
}

static ROWS: [TextRow; 4] = [
    TextRow {
        name: "a sentence of two parts",
        sheet: b"%%\ns : c c ;\nc : 'c' c | 'd' ;\n",
        lines: [
            b"ccc", b"c", b"", b"cccc", b"c", b"d", b"c", b"cc", b"ccccc", b"c", b"", b"c", b"ccc",
            b"c", b"cc", b"d",
        ],
        wrong: b"ddd",
        open: b"c",
    },
    TextRow {
        name: "parentheses around lists of them",
        sheet: b"%%\ns : list ;\nlist : list '(' list ')' | ;\n",
        lines: [
            b"(", b"((", b"()", b")", b"(", b"(()", b")", b"", b"()()", b")(", b")", b")", b"((((",
            b"))", b"))", b")",
        ],
        wrong: b"))))))",
        open: b")(",
    },
    TextRow {
        name: "sums with brackets, each before a semicolon",
        sheet: b"%token N /[0-9]+/\n%skip / +/\n%%\n\
            list : list e ';' | e ';' ;\ne : e '+' t | t ;\nt : N | '(' e ')' ;\n",
        lines: [
            b"1 + 2;",
            b"(3",
            b"+ 4) + 5;",
            b"((6));",
            b"",
            b"7 + (8 + (9",
            b"+ 10",
            b") + 11",
            b") + 12;",
            b"13",
            b";",
            b"(14 +",
            b"(15) +",
            b"16",
            b")",
            b";",
        ],
        wrong: b";;",
        open: b"+ (",
    },
    TextRow {
        name: "blocks of statements",
        sheet: b"%token NAME /[a-z]+/\n%skip / +/\n%%\n\
            body : body part | part ;\n\
            part : NAME '=' NAME ';' | NAME '(' names ')' ';' | 'do' body 'end' | 'if' NAME part ;\n\
            names : names ',' NAME | NAME ;\n",
        lines: [
            b"a = b;",
            b"do",
            b"c = d; do",
            b"e(f, g);",
            b"end",
            b"if h",
            b"i = j;",
            b"if k if l do",
            b"m(n,",
            b"o, p);",
            b"end",
            b"q",
            b"=",
            b"r;",
            b"end",
            b"s = t;",
        ],
        wrong: b"end end end end",
        open: b"do s = t;",
    },
];

/// The text of these lines, of which one may be another.
fn text_of(
    alloc: Global,
    lines: &[&'static [u8]],
    changed: Option<(usize, &'static [u8])>,
) -> Result<Vec<u8>, NoMemory> {
    let mut text = Vec::new(alloc);
    for (place, line) in lines.iter().enumerate() {
        match changed {
            Some((at, other)) if at == place => text.extend_from_slice(other)?,
            _ => text.extend_from_slice(line)?,
        }
        text.push(b'\n')?;
    }
    Ok(text)
}

/// Whether a text, parsed in segments by so many workers, comes to what one parse of it comes to, and has so many pieces.
fn is_same_by<R: Threads + Sync>(
    rt: &R,
    alloc: Global,
    language: &Language,
    source: &Source,
    plain: &Parsed,
    job: &Job<'_>,
    pieces: u64,
    workers: u32,
) -> Result<bool, NoMemory>
    requires language { IsLanguage language.now }
    requires plain { IsParsed language.now.sheet.grammar language.now.built.tables source.now.tokens.items plain.now }
    requires can { CanRun job.now }
    requires tables { job.now.tables.now ≡ language.now.built.tables }
    requires some { 1 ≤ workers }
{
    let run = parse_lines(rt, alloc, job, workers)?;
    let is_counted = run.tokens == source.tokens.len() as u64 && run.pieces == pieces;
    let is_same = are_same(alloc, plain, &run.parsed)?;
    Ok(is_counted && is_same)
}

/// Whether it does by each number of workers.
fn is_same_by_all<R: Threads + Sync>(
    rt: &R,
    alloc: Global,
    language: &Language,
    source: &Source,
    plain: &Parsed,
    job: &Job<'_>,
) -> Result<bool, NoMemory>
    requires language { IsLanguage language.now }
    requires plain { IsParsed language.now.sheet.grammar language.now.built.tables source.now.tokens.items plain.now }
    requires can { CanRun job.now }
    requires tables { job.now.tables.now ≡ language.now.built.tables }
{
    let pieces = count_segments(alloc, job)?.pieces;
    for workers in 1..WORKERS + 1 {
        if !is_same_by(rt, alloc, language, source, plain, job, pieces, workers)? {
            return Ok(false);
        }
    }
    Ok(true)
}

/// Whether a text, cut so, comes to what one parse of it comes to.
fn is_same_for_cut<R: Threads + Sync>(
    rt: &R,
    alloc: Global,
    language: &Language,
    source: &Source,
    plain: &Parsed,
    cut: Cut,
) -> Result<bool, Fail>
    requires language { IsLanguage language.now }
    requires source { IsSource language.now source.now }
    requires plain { IsParsed language.now.sheet.grammar language.now.built.tables source.now.tokens.items plain.now }
{
    let cutting = cut_lines(alloc, source, cut)?;
    let job = source.job(language, &cutting);
    Ok(is_same_by_all(rt, alloc, language, source, plain, &job)?)
}

/// Whether a parse comes to a tree.
fn is_tree(parsed: &Parsed) -> bool {
    match parsed {
        Parsed::Tree { .. } => true,
        Parsed::Wrong { .. } => false,
    }
}

/// What one parse of a text from left to right comes to.
#[tactic(auto, using(lawful_theory::proofs::CanonicalLemmas::lawful_law))]
fn parse_plain(alloc: Global, language: &Language, source: &Source) -> Result<Parsed, Fail>
    requires language { IsLanguage language.now }
    requires source { IsSource language.now source.now }
    ensures { IfOk result (λ parsed. IsParsed language.now.sheet.grammar language.now.built.tables source.now.tokens.items parsed) }
{
    let parsed = parse_one(alloc, &language.built.tables, &source.tokens)?;
    Ok(parsed)
}

/// Whether a text, cut in each of these ways, comes to what one parse of it comes to.
fn is_same_for_cuts<R: Threads + Sync>(
    rt: &R,
    alloc: Global,
    language: &Language,
    source: &Source,
    plain: &Parsed,
    cuts: &[Cut],
) -> Result<bool, Fail>
    requires language { IsLanguage language.now }
    requires source { IsSource language.now source.now }
    requires plain { IsParsed language.now.sheet.grammar language.now.built.tables source.now.tokens.items plain.now }
{
    for cut in cuts {
        if !is_same_for_cut(rt, alloc, language, source, plain, *cut)? {
            return Ok(false);
        }
    }
    Ok(true)
}

/// Whether a text comes to a tree where that is stated, and where it is cut so to what one parse of it comes to.
fn comes_to_one<R: Threads + Sync>(
    rt: &R,
    alloc: Global,
    language: &Language,
    text: Vec<u8>,
    has_tree: bool,
    cuts: &[Cut],
) -> Result<bool, Fail>
    requires { IsLanguage language.now }
{
    let source = Source::read(alloc, language, text)?;
    let plain = parse_plain(alloc, language, &source)?;
    if is_tree(&plain) != has_tree {
        return Ok(false);
    }
    is_same_for_cuts(rt, alloc, language, &source, &plain, cuts)
}

#[test]
fn sentences_come_to_one_tree(rt: HostRuntime) -> Result<(), Fail> {
    for row in &ROWS {
        let language = Language::read(rt.alloc(), row.sheet)?;
        let text = text_of(rt.alloc(), &row.lines, None)?;
        assert!(rt;
            comes_to_one(&rt, rt.alloc(), &language, text, true, &CUTS)?,
            "{}",
            row.name
        );
    }
    Ok(())
}

#[test]
fn a_wrong_line_in_each_segment_is_found_at_one_place(rt: HostRuntime) -> Result<(), Fail> {
    for row in &ROWS {
        let language = Language::read(rt.alloc(), row.sheet)?;
        for line in 0..row.lines.len() {
            let text = text_of(rt.alloc(), &row.lines, Some((line, row.wrong)))?;
            // The most segments take by far the longest.
            let cuts = if line % 5 == 0 {
                &CUTS[..]
            } else {
                &CUTS[..10]
            };
            assert!(rt;
                comes_to_one(&rt, rt.alloc(), &language, text, false, cuts)?,
                "{}, line {line}",
                row.name
            );
        }
    }
    Ok(())
}

#[test]
fn texts_that_end_too_early_are_wrong_at_their_end(rt: HostRuntime) -> Result<(), Fail> {
    for row in &ROWS {
        let language = Language::read(rt.alloc(), row.sheet)?;
        let text = text_of(rt.alloc(), &row.lines, Some((15, row.open)))?;
        assert!(rt;
            comes_to_one(&rt, rt.alloc(), &language, text, false, &CUTS)?,
            "{}",
            row.name
        );
    }
    Ok(())
}

#[test]
fn texts_without_tokens_are_as_one_parse_says(rt: HostRuntime) -> Result<(), Fail> {
    for (row, has_tree) in ROWS.iter().zip([false, true, false, false]) {
        let language = Language::read(rt.alloc(), row.sheet)?;
        for feeds in [0, 3] {
            let text = vec![in rt.alloc(); b'\n'; feeds]?;
            assert!(rt;
                comes_to_one(&rt, rt.alloc(), &language, text, has_tree, &CUTS)?,
                "{}",
                row.name
            );
        }
    }
    Ok(())
}
