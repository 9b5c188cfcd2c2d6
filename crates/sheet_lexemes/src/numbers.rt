//! Numbers in decimal digits.
ghost use Rattle.std.specs.Prelude.{◌≡◌, ℕ, ◌≤◌, length, slice_range, All, IsTrue};
ghost use Rattle.lexeme_theory.specs.SheetBytes.{is_digit};
ghost use Rattle.lexeme_theory.specs.Decimals.{decimal_value};
ghost use Rattle.lexeme_theory.specs.declared.lexeme.Lexeme.{Lexeme};
ghost use Rattle.lexeme_theory.specs.Stands.{IsNumberFound};
ghost use Rattle.sheet_lexemes.specs.Parts.{numbered};

use crate::runs::digits_end;

/// The most digits of a number.
const MOST_DIGITS: usize = 9;

/// A number, and the place behind its digits.
#[derive(Clone, Copy, Debug)]
pub struct Digits {
    pub value: u32,
    pub next: usize,
}

/// The number whose digits begin at a place; none where there are more than 9 of them.
pub fn read_number(bytes: &[u8], from: usize) -> Option<Digits>
    requires { from ≤ length bytes.now }
    ensures { (number : ℕ → Lexeme) → IsNumberFound number bytes.now from (numbered number result) }
{
    let next = digits_end(bytes, from);
    if MOST_DIGITS < next - from {
        return None;
    }
    let value = value_of(&bytes[from..next]);
    Some(Digits { value, next })
}

/// The number that at most 9 digits say.
fn value_of(digits: &[u8]) -> u32
    requires few { length digits.now ≤ 9 }
    requires digits { All (λ byte. IsTrue (is_digit byte)) digits.now }
    ensures { result ≡ decimal_value digits.now }
{
    let mut value = 0;
    for digit in digits {
        value = value * 10 + u32::from(*digit - b'0');
    }
    value
}
