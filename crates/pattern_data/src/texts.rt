//! The normal text of a set of bytes.
ghost use Rattle.std.specs.Prelude.{◌≡◌, ◌+◌, ◌<◌, ◌≤◌, ◌++◌, reverse, OnOk, IfOk};
ghost use Rattle.pattern_data.specs.Escapes.{hex_digit};
ghost use Rattle.pattern_data.specs.Texts.{is_special, is_letter_or_digit, hex_text, byte_text, member_text, run_text, class_text, text_of_runs, runs_of, run_before, is_any, set_text};

use crate::byte_set::ByteSet;
use crate::classes::ByteRange;
use std::alloc::{AllocError, Global};

fn is_mark(byte: u8) -> bool
    ensures { result ≡ is_special byte }
{
    matches!(
        byte,
        b'.' | b'[' | b']' | b'(' | b')' | b'*' | b'+' | b'?' | b'|' | b'\\' | b'/'
    )
}

/// A digit of base 16.
fn digit(value: u8) -> u8
    requires { value < 16 }
    ensures { result ≡ hex_digit value }
{
    if value < 10 {
        b'0' + value
    } else {
        b'a' + (value - 10)
    }
}

/// Writes a byte by its digits.
fn write_digits(byte: u8, text: &mut Vec<u8>) -> Result<(), AllocError>
    ensures { OnOk result (text.new.items ≡ text.old.items ++ hex_text byte) }
{
    text.extend_from_slice(&[b'\\', b'x', digit(byte / 16), digit(byte % 16)])
}

/// Writes a byte outside of classes.
fn write_byte(byte: u8, text: &mut Vec<u8>) -> Result<(), AllocError>
    ensures { OnOk result (text.new.items ≡ text.old.items ++ byte_text byte) }
{
    if is_mark(byte) {
        return text.extend_from_slice(&[b'\\', byte]);
    }
    if (b' '..=b'~').contains(&byte) {
        return text.extend_from_slice(&[byte]);
    }
    write_digits(byte, text)
}

/// Writes a byte in a class.
fn write_member(byte: u8, text: &mut Vec<u8>) -> Result<(), AllocError>
    ensures { OnOk result (text.new.items ≡ text.old.items ++ member_text byte) }
{
    if byte.is_ascii_alphanumeric() {
        return text.extend_from_slice(&[byte]);
    }
    write_digits(byte, text)
}

/// Writes a run in a class.
fn write_run(run: ByteRange, text: &mut Vec<u8>) -> Result<(), AllocError>
    ensures { OnOk result (text.new.items ≡ text.old.items ++ run_text run) }
{
    write_member(run.low, text)?;
    if run.low == run.high {
        return Ok(());
    }
    if usize::from(run.low) + 1 != usize::from(run.high) {
        text.push(b'-')?;
    }
    write_member(run.high, text)
}

/// Writes a class of these runs.
fn write_class(runs: &[ByteRange], text: &mut Vec<u8>) -> Result<(), AllocError>
    ensures { OnOk result (text.new.items ≡ text.old.items ++ class_text runs.now) }
{
    text.push(b'[')?;
    for run in runs {
        write_run(*run, text)?;
    }
    text.push(b']')?;
    Ok(())
}

/// Puts a byte before runs that stand in falling order.
fn add(runs: &mut Vec<ByteRange>, byte: u8) -> Result<(), AllocError>
    ensures { OnOk result (reverse runs.new.items ≡ run_before byte (reverse runs.old.items)) }
{
    let alone = ByteRange {
        low: byte,
        high: byte,
    };
    let Some(run) = runs.pop() else {
        runs.push(alone)?;
        return Ok(());
    };
    if usize::from(run.low) == usize::from(byte) + 1 {
        runs.push(ByteRange {
            low: byte,
            high: run.high,
        })?;
        return Ok(());
    }
    runs.push(run)?;
    runs.push(alone)?;
    Ok(())
}

/// The maximal runs of the set, in rising order.
fn runs_in(alloc: Global, set: &ByteSet) -> Result<Vec<ByteRange>, AllocError>
    ensures { IfOk result (λ runs. runs.items ≡ runs_of set.now) }
{
    let mut runs = Vec::new(alloc);
    for taken in 0..256usize {
        let byte = (255 - taken) as u8;
        if set.has(byte) {
            add(&mut runs, byte)?;
        }
    }
    runs.reverse();
    Ok(runs)
}

/// Writes one byte, or a class.
fn write_runs(runs: &[ByteRange], text: &mut Vec<u8>) -> Result<(), AllocError>
    ensures { OnOk result (text.new.items ≡ text.old.items ++ text_of_runs runs.now) }
{
    match runs {
        [run] if run.low == run.high => write_byte(run.low, text),
        _ => write_class(runs, text),
    }
}

/// Writes a set.
pub fn write_set(alloc: Global, set: &ByteSet, text: &mut Vec<u8>) -> Result<(), AllocError>
    ensures { OnOk result (text.new.items ≡ text.old.items ++ set_text set.now) }
{
    if set.is_any() {
        text.push(b'.')?;
        return Ok(());
    }
    let runs = runs_in(alloc, set)?;
    write_runs(&runs, text)
}
