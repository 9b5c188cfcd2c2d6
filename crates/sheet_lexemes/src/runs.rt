//! Where runs of places end.
ghost use Rattle.std.specs.Prelude.{◌≡◌, ◌≤◌, ◌==◌, ◌&&◌, ◌||◌, not, length};
ghost use Rattle.scanning_theory.specs.Lines.{line_feed};
ghost use Rattle.sheet_theory.specs.Names.{backslash};
ghost use Rattle.lexeme_theory.specs.SheetBytes.{is_name_byte, is_digit};
ghost use Rattle.lexeme_theory.specs.Runs.{IsRun, IsRunOf};
ghost use Rattle.lexeme_theory.specs.Stands.{closes_comment};
ghost use Rattle.lexeme_theory.specs.Texts.{IsTextRun};

use crate::kinds::continues_name;

/// Where the letters, digits and `_` from a place on end.
pub fn name_end(bytes: &[u8], from: usize) -> usize
    requires { from ≤ length bytes.now }
    ensures { IsRunOf is_name_byte bytes.now from result }
{
    let mut to = from;
    while to < bytes.len() && continues_name(bytes[to]) {
        to += 1;
    }
    to
}

/// Where the digits from a place on end.
pub fn digits_end(bytes: &[u8], from: usize) -> usize
    requires { from ≤ length bytes.now }
    ensures { IsRunOf is_digit bytes.now from result }
{
    let mut to = from;
    while to < bytes.len() && bytes[to].is_ascii_digit() {
        to += 1;
    }
    to
}

/// Where the line ends: at its line feed, or at the end.
pub fn line_end(bytes: &[u8], from: usize) -> usize
    requires { from ≤ length bytes.now }
    ensures { IsRunOf (λ byte. not (byte == line_feed)) bytes.now from result }
{
    let mut to = from;
    while to < bytes.len() && bytes[to] != b'\n' {
        to += 1;
    }
    to
}

/// Whether `*/` stands at a place.
fn closes(bytes: &[u8], at: usize) -> bool
    ensures { result ≡ closes_comment bytes.now at }
{
    bytes.get(at) == Some(&b'*') && bytes.get(at + 1) == Some(&b'/')
}

/// Where the next `*/` stands, or the end.
pub fn comment_end(bytes: &[u8], from: usize) -> usize
    requires { from ≤ length bytes.now }
    ensures { IsRun (λ i. not (closes_comment bytes.now i)) (length bytes.now) from result }
{
    let mut to = from;
    while to < bytes.len() && !closes(bytes, to) {
        to += 1;
    }
    to
}

/// Whether a text goes on with a byte, which a backslash may take.
fn is_text_byte(byte: u8, closing: u8, is_taken: bool) -> bool
    ensures { result ≡ (not (byte == line_feed) && (not (byte == closing) || is_taken)) }
{
    byte != b'\n' && (byte != closing || is_taken)
}

/// Whether a byte takes the one behind it.
fn takes_next(byte: u8, is_taken: bool) -> bool
    ensures { result ≡ ((byte == backslash) && not is_taken) }
{
    byte == b'\\' && !is_taken
}

/// Where the text that begins at a place ends: at the closing byte that no backslash takes, at the line feed, or at
/// the end.
pub fn text_end(bytes: &[u8], from: usize, closing: u8) -> usize
    requires { from ≤ length bytes.now }
    ensures { IsTextRun closing bytes.now from result }
{
    let mut to = from;
    let mut is_taken = false;
    while to < bytes.len() && is_text_byte(bytes[to], closing, is_taken) {
        is_taken = takes_next(bytes[to], is_taken);
        to += 1;
    }
    to
}
