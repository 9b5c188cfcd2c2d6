use std::fs;
use std::rt::Files;

/// Where Linux says how many pages of memory a process takes: of the numbers there the second one is that of resident pages.
const PAGES: &str = "/proc/self/statm";

/// The pages of memory that the process takes, by the system; `None` where it doesn't say.
pub fn resident_pages<R: Files + AllocGlobal>(rt: &R) -> Option<u64> {
    let text = fs::read_to_string(rt, PAGES).ok()?;
    let word = text.as_str().split(' ').nth(1)?;
    word.parse::<u64>().ok()
}
