//! Rows of large collections: a small programming language, and grammars at the limit of states. The numbers of states
//! are those that menhir and bison find.

ghost use Rattle.std.specs.Prelude.{◌≤◌};

use crate::collections::{Collected, try_collect};
use lr_base::{Grammar, NameId, Rule, Sym, TokenId};
use std::alloc::{AllocError, Global};
use std::test::Fail;

/// The rule of a row of numbers: its left side, and its right side, in which the numbers below `names` are names and
/// those from there on tokens.
fn rule_of(alloc: Global, names: u32, row: &[u32]) -> Result<Rule, AllocError> {
    let mut right = Vec::new(alloc);
    for number in row.iter().skip(1) {
        right.push(if *number < names {
            Sym::Name(NameId(*number))
        } else {
            Sym::Token(TokenId(number.saturating_sub(names)))
        })?;
    }
    Ok(Rule {
        left: NameId(row.first().copied().unwrap_or(0)),
        right,
    })
}

/// The numbers of a line.
fn row_of(alloc: Global, line: &str) -> Result<Vec<u32>, AllocError> {
    let mut row = Vec::new(alloc);
    for word in line.split_whitespace() {
        row.push(word.parse::<u32>().unwrap_or(0))?;
    }
    Ok(row)
}

/// The grammar whose rules are rows, one a line, and whose start is name 0.
fn grammar_of(
    alloc: Global,
    tokens: u32,
    names: u32,
    rows: &str,
) -> Result<Option<Grammar>, AllocError> {
    let mut rules = Vec::new(alloc);
    for line in rows.lines() {
        let row = row_of(alloc, line)?;
        rules.push(rule_of(alloc, names, &row)?)?;
    }
    Ok(Grammar::new(tokens, names, rules, NameId(0)))
}

/// The rules of `examples/tarn.sheet`, as `bench/grammar.py rows` writes them.
static TARN: &str = "\
0 1 5
1
1 1 2
2 71 3 117
2 71 3 72 112 117
2 71 3 118 119 4 120 117
3 112
3 3 121 112
4 112
4 4 122 112
5
5 5 6
6 7
6 73 7
7 8
7 9
7 10
7 13
7 16
7 18
7 20
8 74 112 123 29 124 44 117
9 77 112 23 124 29 117
10 78 112 23 119 11 120
11
11 11 12
12 112 123 29 117
12 112 123 29 124 44 117
13 79 112 23 119 14 120
14 15
14 14 122 15
15 112
15 112 125 32 126
15 112 124 113
16 80 112 23 119 17 120
17
17 17 21 117
18 81 29 119 19 120
18 81 29 82 29 119 19 120
19
19 19 20
20 21 33
20 21 124 44 117
21 83 112 23 125 26 126 22
22
22 127 29
23
23 128 24 129
24 25
24 24 122 25
25 112
25 112 123 29
26
26 27
27 28
27 27 122 28
28 112 123 29
28 112 123 29 124 44
28 107
28 76 107
29 30
29 29 130
30 3
30 3 128 32 129
30 131 29 132
30 131 29 123 29 132
30 125 126
30 125 32 126
30 83 125 126 31
30 83 125 32 126 31
31 127 30
32 29
32 32 122 29
33 119 34 120
34
34 34 35
35 75 41 123 29 124 44 117
35 75 41 124 44 117
35 76 112 123 29 117
35 76 112 123 29 124 44 117
35 76 112 124 44 117
35 44 117
35 59 36 44 117
35 37
35 86 44 33
35 87 33 86 44 117
35 88 41 89 44 33
35 90 33
35 91 44 119 38 120
35 97 33 98 112 33
35 99 35
35 100 44 117
35 100 44 123 44 117
35 93 117
35 94 117
35 95 117
35 95 44 117
35 96 44 117
35 33
35 20
35 117
36 124
36 133
36 134
36 135
36 136
36 137
36 138
36 139
36 140
36 141
36 142
37 84 44 33
37 84 44 33 85 33
37 84 44 33 85 37
38 39
38 38 39
39 40 143 35
39 40 92 44 143 35
40 41
40 40 144 41
41 112
41 111
41 70
41 145 113
41 42 125 43 126
41 42
41 125 43 126
41 131 132
41 131 43 132
42 112 121 112
42 42 121 112
43 41
43 43 122 41
44 84 44 102 44 85 44
44 146 4 127 44
44 45
45 46
45 46 147 45
46 47
46 46 103 47
47 48
47 47 104 48
48 49
48 105 48
49 50
49 50 148 50
49 50 149 50
49 50 128 50
49 50 150 50
49 50 129 50
49 50 151 50
49 50 89 50
49 50 106 29
50 51
50 51 152 51
50 51 153 51
51 52
51 51 144 52
52 53
52 52 154 53
53 54
53 53 155 54
54 55
54 54 156 55
54 54 157 55
55 56
55 55 158 56
55 55 145 56
56 57
56 56 159 57
56 56 160 57
56 56 161 57
57 58
57 145 57
57 162 57
57 163 57
58 59
58 59 164 57
59 63
59 59 125 60 126
59 59 131 44 132
59 59 131 44 123 44 132
59 59 118 112
59 59 165 112
59 59 162
59 59 72 128 29 129
60
60 61
61 62
61 61 122 62
62 44
62 112 123 44
63 70
63 3
63 107
63 125 126
63 125 44 126
63 125 44 122 64 126
63 131 132
63 131 64 132
63 131 44 88 41 89 44 132
63 131 65 132
63 101 3 119 67 120
63 83 125 26 126 22 33
64 44
64 64 122 44
65 66
65 65 122 66
66 44 123 44
67
67 68
68 69
68 68 122 69
69 112 123 44
70 113
70 114
70 115
70 116
70 108
70 109
70 110
";

#[test]
fn a_programming_language_has_7703_states(rt: HostRuntime) -> Result<(), Fail> {
    let grammar = grammar_of(rt.alloc(), 95, 71, TARN)?.ok_or("no grammar")?;
    match try_collect(rt.alloc(), &grammar) {
        Collected::States(collection) => assert_eq!(rt; collection.states(), 7703),
        _ => assert!(rt; false, "no collection"),
    }
    Ok(())
}

/// Names 1 to 12 are the levels: which of the last thirteen tokens were `a` has to be known.
const LEVELS: u32 = 12;

/// The first name of the chain.
const CHAIN: u32 = 13;

/// The rules of the levels.
fn level_rules(alloc: Global, names: u32) -> Result<Vec<Rule>, AllocError>
    requires { names ≤ 200 }
{
    let (a, b) = (names, names + 1);
    let mut rules = Vec::new(alloc);
    rules.push(rule_of(alloc, names, &[0, a, 0])?)?;
    rules.push(rule_of(alloc, names, &[0, b, 0])?)?;
    rules.push(rule_of(alloc, names, &[0, a, 1])?)?;
    for level in 1..LEVELS {
        rules.push(rule_of(alloc, names, &[level, a, level + 1])?)?;
        rules.push(rule_of(alloc, names, &[level, b, level + 1])?)?;
    }
    rules.push(rule_of(alloc, names, &[LEVELS, a])?)?;
    rules.push(rule_of(alloc, names, &[LEVELS, b])?)?;
    Ok(rules)
}

/// A grammar of 8,219 states and of one more for each symbol of its chain, which has one symbol, twenty for each link,
/// and `last` more.
fn chained_grammar(alloc: Global, links: u32, last: usize) -> Result<Option<Grammar>, AllocError>
    requires links { links ≤ 100 }
    requires last { last ≤ 20 }
{
    let names = CHAIN + links + 1;
    let c = names + 2;
    let mut rules = level_rules(alloc, names)?;
    rules.push(rule_of(alloc, names, &[0, CHAIN])?)?;
    for link in 0..links {
        let mut row = [c; 21];
        row[0] = CHAIN + link;
        row[20] = CHAIN + link + 1;
        rules.push(rule_of(alloc, names, &row)?)?;
    }
    let mut row = [c; 21];
    row[0] = CHAIN + links;
    rules.push(rule_of(alloc, names, &row[..=last])?)?;
    Ok(Grammar::new(3, names, rules, NameId(0)))
}

#[test]
fn as_many_states_as_the_limit(rt: HostRuntime) -> Result<(), Fail> {
    let grammar = chained_grammar(rt.alloc(), 88, 20)?.ok_or("no grammar")?;
    match try_collect(rt.alloc(), &grammar) {
        Collected::States(collection) => assert_eq!(rt; collection.states(), 10_000),
        _ => assert!(rt; false, "no collection"),
    }
    Ok(())
}

#[test]
fn one_state_more_than_the_limit(rt: HostRuntime) -> Result<(), Fail> {
    let grammar = chained_grammar(rt.alloc(), 89, 1)?.ok_or("no grammar")?;
    assert!(rt; matches!(try_collect(rt.alloc(), &grammar), Collected::TooManyStates));
    Ok(())
}
