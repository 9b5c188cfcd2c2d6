ghost use Rattle.std.specs.Prelude.{◌≡◌, ℕ, ◌+◌, ◌^◌, ◌<◌, Option, Some, IfSome, length, min, take, string_bytes, position};
ghost use Rattle.std.specs.Option.{option_and_then};
ghost use Rattle.std.specs.Str.{bytes_eq};
ghost use Rattle.lr_base.specs.Files.{bytes_under, named_bytes};
ghost use Rattle.lr_base.specs.Marks.{bytes_from, IsMarkIn, ReadsFrom};

/// A place in a list of files: a file by its index, and how many of its bytes lie before the mark.
#[derive(Clone, Copy, Debug)]
pub struct Mark {
    pub file: usize,
    pub at: usize,
}

/// The index of the first file that has the name.
fn place_of(files: &[(String, Vec<u8>)], name: &str) -> Option<usize>
    ensures { result ≡ position (λ file. bytes_eq name.now (string_bytes file.0)) files.now }
{
    files.iter().position(|file| name == file.0.as_str())
}

/// The start of the first file that has the name.
pub fn find_file(files: &[(String, Vec<u8>)], name: &str) -> Option<Mark>
    ensures found { option_and_then (bytes_from (named_bytes files.now)) result
        ≡ bytes_under (named_bytes files.now) name.now }
    ensures within { IfSome result (IsMarkIn (named_bytes files.now)) }
{
    let file = place_of(files, name)?;
    Some(Mark { file, at: 0 })
}

/// The bytes from the mark on.
fn rest_of(files: &[(String, Vec<u8>)], mark: Mark) -> &[u8]
    requires { IsMarkIn (named_bytes files.now) mark }
    ensures rest { bytes_from (named_bytes files.now) mark ≡ Some result.now }
    ensures fits { mark.at + length result.now < 2 ^ 64 }
{
    let bytes = files[mark.file].1.as_slice();
    &bytes[mark.at..]
}

/// Puts bytes at the front of the buffer, as many as there are and as it has room for, and answers how many.
fn copy_front(bytes: &[u8], buffer: &mut [u8]) -> usize
    ensures count { result ≡ min (length bytes.now) (length buffer.old) }
    ensures front { take result buffer.new ≡ take result bytes.now }
{
    let count = bytes.len().min(buffer.len());
    buffer[..count].copy_from_slice(&bytes[..count]);
    count
}

/// Reads on from the mark, and answers how many bytes that gave.
pub fn read_from(files: &[(String, Vec<u8>)], mark: Mark, buffer: &mut [u8]) -> usize
    requires { IsMarkIn (named_bytes files.now) mark }
    ensures reads { ReadsFrom (named_bytes files.now) mark buffer.old buffer.new result }
    ensures fits { mark.at + result < 2 ^ 64 }
{
    copy_front(rest_of(files, mark), buffer)
}
