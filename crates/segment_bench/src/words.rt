use crate::fault::Fault;

/// What the words ask for.
#[derive(Clone, Copy)]
pub struct Words<'a> {
    pub sheet: &'a str,
    pub text: &'a str,
    pub segments: u32,
    pub turns: u32,
}

impl<'a> Words<'a> {
    /// Reads four words.
    pub fn of(words: &'a [String]) -> Result<Words<'a>, Fault> {
        if words.len() != 4 {
            return Err(Fault::Words);
        }
        Ok(Words {
            sheet: words[0].as_str(),
            text: words[1].as_str(),
            segments: number_of(words[2].as_str())?,
            turns: number_of(words[3].as_str())?,
        })
    }
}

/// A number in decimal digits.
fn number_of(word: &str) -> Result<u32, Fault> {
    match word.parse::<u32>() {
        Ok(number) => Ok(number),
        Err(_) => Err(Fault::Words),
    }
}
