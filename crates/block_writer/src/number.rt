ghost use Rattle.std.specs.Prelude.{◌≡◌, ◌++◌, decimal, MatchResult};

use itoa::Buffer;
use lr_base::NoMemory;

/// Adds a number in decimal digits to a text; where memory runs out the text is as before.
pub fn push_number(text: &mut Vec<u8>, number: u64) -> Result<(), NoMemory>
    ensures { MatchResult result (λ _. text.new.items ≡ text.old.items ++ decimal number) (λ _. text.new.items ≡ text.old.items) }
{
    if number < 10 {
        text.push(b'0' + number as u8)?;
        return Ok(());
    }
    let mut digits = Buffer::new();
    text.extend_from_slice(digits.format(number).as_bytes())?;
    Ok(())
}
