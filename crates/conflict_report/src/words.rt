//! Words of a printed line.
ghost use Rattle.std.specs.Prelude.{◌≡◌, ◌++◌, OnOk};
ghost use Rattle.report_theory.specs.ItemTexts.{behind_space};
ghost use Rattle.report_theory.specs.TableTexts.{last_number};

use block_writer::push_number;
use lr_base::NoMemory;

/// Adds a space and a word.
pub fn push_word(text: &mut Vec<u8>, word: &[u8]) -> Result<(), NoMemory>
    ensures { OnOk result (text.new.items ≡ text.old.items ++ behind_space word.now) }
{
    text.push(b' ')?;
    text.extend_from_slice(word)?;
    Ok(())
}

/// Adds a number that ends its line.
pub fn push_last(text: &mut Vec<u8>, number: u32) -> Result<(), NoMemory>
    ensures { OnOk result (text.new.items ≡ text.old.items ++ last_number number) }
{
    push_number(text, u64::from(number))?;
    text.extend_from_slice(b"\n")?;
    Ok(())
}
