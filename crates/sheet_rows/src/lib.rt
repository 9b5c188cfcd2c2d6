//! Worked rows of sheets: their lexemes, patterns and tokens, and how texts are scanned by them.
#![tactic(auto)]

#[cfg(test)]
mod far_scans;
#[cfg(test)]
mod lexemes;
#[cfg(test)]
mod patterns;
#[cfg(test)]
mod reading;
#[cfg(test)]
mod scanning;
