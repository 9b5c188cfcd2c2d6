//! A text parsed in segments: each is scanned and parsed for itself, neighbours are joined by halves, and the end of the parse
//! gives what one parse of the text gives.
#![tactic(auto)]

mod halves;
mod joined;
mod ranges;
mod run;

pub use run::{SegmentRun, parse_lines};
