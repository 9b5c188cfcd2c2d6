//! Rows of joins: texts cut into segments, whose pieces are joined under several bracketings and finished, come to what one parse
//! comes to.
#![tactic(auto)]

#[cfg(test)]
mod answers;
#[cfg(test)]
mod joining;
#[cfg(test)]
mod seams;
#[cfg(test)]
mod texts;
