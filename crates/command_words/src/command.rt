use crate::options::RunOptions;
use answer_theory::Seed;

/// What the words ask for: a task, with the names of what it reads and, where a text is parsed, the options of its parse.
#[derive(Debug, Drop)]
pub enum Command<'a> {
    Tokens {
        sheet: &'a str,
        text: &'a str,
    },
    Check {
        sheet: &'a str,
    },
    Tables {
        sheet: &'a str,
    },
    Run {
        options: RunOptions,
        sheet: &'a str,
        text: &'a str,
    },
    Gen {
        seed: Seed,
        sheet: &'a str,
    },
    Load {
        seed: Seed,
        options: RunOptions,
        sheet: &'a str,
    },
}
