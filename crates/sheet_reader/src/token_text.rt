//! The printed names of tokens.
ghost use Rattle.std.specs.Prelude.{◌≡◌, ◌<◌, [], ◌∷◌, ◌++◌, length, slice_get, Some, IfOk, OnOk, MatchOption};
ghost use Rattle.sheet_theory.specs.Names.{quote, hex_digit, escaped_byte, escaped, declared_names};
ghost use Rattle.sheet_reader.specs.WellFormed.{name_in};

use lr_base::NoMemory;
use sheet_data::Decl;
use std::alloc::Global;

/// The name that a declaration gives to its token, where it declares one.
fn token_name(decl: &Decl) -> Option<&[u8]>
    ensures { MatchOption result (name_in decl.now ≡ []) (λ name. name_in decl.now ≡ name.now ∷ []) }
{
    match decl {
        Decl::Literal { name, .. } | Decl::Matched { name, .. } => Some(name.as_slice()),
        Decl::Skip { .. } => None,
    }
}

/// The name of the declared token of this number.
pub fn declared_name(decls: &[Decl], number: usize) -> &[u8]
    requires { number < length (declared_names decls.now) }
    ensures { slice_get (declared_names decls.now) number ≡ Some result.now }
{
    let mut left = number;
    for decl in decls {
        let Some(name) = token_name(decl) else {
            continue;
        };
        if left == 0 {
            return name;
        }
        left -= 1;
    }
    unreachable!()
}

/// The bytes between quotes, with a backslash before each quote and backslash, and other bytes than 0x20 to 0x7E by
/// their digits.
pub fn quoted(alloc: Global, bytes: &[u8]) -> Result<Vec<u8>, NoMemory>
    ensures { IfOk result (λ text. text.items ≡ escaped quote bytes.now) }
{
    let mut text = Vec::new(alloc);
    push_escaped(&mut text, b'\'', bytes)?;
    Ok(text)
}

/// Puts bytes between two of the closing byte, with a backslash before each closing byte and backslash.
pub fn push_escaped(text: &mut Vec<u8>, closing: u8, bytes: &[u8]) -> Result<(), NoMemory>
    ensures { OnOk result (text.new.items ≡ text.old.items ++ escaped closing bytes.now) }
{
    text.push(closing)?;
    for byte in bytes {
        push_escaped_byte(text, closing, *byte)?;
    }
    text.push(closing)?;
    Ok(())
}

fn push_escaped_byte(text: &mut Vec<u8>, closing: u8, byte: u8) -> Result<(), NoMemory>
    ensures { OnOk result (text.new.items ≡ text.old.items ++ escaped_byte closing byte) }
{
    if byte == closing || byte == b'\\' {
        text.extend_from_slice(&[b'\\', byte])?;
    } else if matches!(byte, b' '..=b'~') {
        text.push(byte)?;
    } else {
        text.extend_from_slice(&[b'\\', b'x', digit(byte / 16), digit(byte % 16)])?;
    }
    Ok(())
}

/// The digit of base 16, in lower case.
fn digit(value: u8) -> u8
    requires { value < 16 }
    ensures { result ≡ hex_digit value }
{
    if value < 10 {
        b'0' + value
    } else {
        b'a' + (value - 10)
    }
}
