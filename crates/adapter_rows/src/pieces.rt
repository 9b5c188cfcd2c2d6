//! Rows of reading and writing whole pieces over the ends in memory.

use lr_base::{Failed, MemShelf, MemSink, NoMemory, ReadFault, Shelf, Text, read_all, write_all};
use std::alloc::{AllocError, Global};
use std::test::Fail;

/// A shelf of one text, under the name `t`.
fn shelf_of(alloc: Global, text: &[u8]) -> Result<MemShelf, AllocError> {
    let name = String::from_str(alloc, "t")?;
    let text = Vec::from_slice(alloc, text)?;
    let mut files = Vec::new(alloc);
    files.push((name, text))?;
    Ok(MemShelf::new(files, Vec::new(alloc)))
}

/// A text that is read with a limit: whole, or too long with these bytes left on the shelf.
struct ReadRow {
    name: &'static str,
    text: &'static [u8],
    limit: u16,
    is_whole: bool,
    left: &'static [u8],
}

static READS: [ReadRow; 6] = [
    ReadRow {
        name: "fewer bytes than the limit",
        text: b"abc",
        limit: 4,
        is_whole: true,
        left: b"",
    },
    ReadRow {
        name: "as many bytes as the limit",
        text: b"abc",
        limit: 3,
        is_whole: true,
        left: b"",
    },
    ReadRow {
        name: "one byte more",
        text: b"abc",
        limit: 2,
        is_whole: false,
        left: b"",
    },
    ReadRow {
        name: "many bytes more",
        text: b"abcdef",
        limit: 2,
        is_whole: false,
        left: b"def",
    },
    ReadRow {
        name: "no bytes and a limit of none",
        text: b"",
        limit: 0,
        is_whole: true,
        left: b"",
    },
    ReadRow {
        name: "a byte and a limit of none",
        text: b"a",
        limit: 0,
        is_whole: false,
        left: b"",
    },
];

/// Whether the text is read as stated, and the next read gives what is stated to be left.
fn reads_as_stated(alloc: Global, row: &ReadRow) -> Result<bool, Fail> {
    let mut shelf = shelf_of(alloc, row.text)?;
    let is_as_stated = match read_all(alloc, &mut shelf, "t", usize::from(row.limit))? {
        Text::Whole(bytes) => row.is_whole && bytes.as_slice() == row.text,
        Text::TooLong => !row.is_whole,
    };
    let mut buffer = [0; 8];
    let count = shelf.read(&mut buffer)?;
    Ok(is_as_stated && count == row.left.len() && buffer.starts_with(row.left))
}

/// Whether a name under which nothing stands can't be read, and no read goes on after that.
fn fails_unknown(alloc: Global) -> Result<bool, AllocError> {
    let mut shelf = shelf_of(alloc, b"abc")?;
    let fault = read_all(alloc, &mut shelf, "x", 4).err();
    Ok(fault == Some(ReadFault::Failed) && shelf.read(&mut [0; 8]) == Err(Failed))
}

#[test]
fn reads_a_text_whole_or_one_byte_past_the_limit(rt: HostRuntime) -> Result<(), Fail> {
    for row in &READS {
        let reads = reads_as_stated(rt.alloc(), row)?;
        assert!(rt; reads, "{}", row.name);
    }
    let fails = fails_unknown(rt.alloc())?;
    assert!(rt; fails, "a name under which nothing stands");
    Ok(())
}

/// A sink by its room, its step and the writes that fail; three pieces, whether each is written whole, and what the sink
/// took.
struct WriteRow {
    name: &'static str,
    room: usize,
    step: usize,
    fails: &'static [u64],
    pieces: [&'static [u8]; 3],
    passes: [bool; 3],
    taken: &'static [u8],
}

static WRITES: [WriteRow; 6] = [
    WriteRow {
        name: "steps of one byte",
        room: 9,
        step: 1,
        fails: &[],
        pieces: [b"abcdef", b"", b"ghi"],
        passes: [true, true, true],
        taken: b"abcdefghi",
    },
    WriteRow {
        name: "steps of four bytes",
        room: 9,
        step: 4,
        fails: &[],
        pieces: [b"abcdef", b"", b"ghi"],
        passes: [true, true, true],
        taken: b"abcdefghi",
    },
    WriteRow {
        name: "one byte of room too little, and an empty piece at full room",
        room: 8,
        step: 4,
        fails: &[],
        pieces: [b"abcdef", b"ghi", b""],
        passes: [true, false, true],
        taken: b"abcdefgh",
    },
    WriteRow {
        name: "no room",
        room: 0,
        step: 4,
        fails: &[],
        pieces: [b"a", b"", b"b"],
        passes: [false, true, false],
        taken: b"",
    },
    WriteRow {
        name: "the second write fails",
        room: 9,
        step: 2,
        fails: &[2],
        pieces: [b"abcdef", b"", b"ghi"],
        passes: [false, true, true],
        taken: b"abghi",
    },
    WriteRow {
        name: "the first and the third write fail, and an empty piece makes none",
        room: 9,
        step: 9,
        fails: &[1, 3],
        pieces: [b"", b"abc", b"def"],
        passes: [true, false, true],
        taken: b"def",
    },
];

fn writes_as_stated(alloc: Global, row: &WriteRow) -> Result<bool, NoMemory> {
    let fails = Vec::from_slice(alloc, row.fails)?;
    let mut sink = MemSink::new(alloc, row.room, row.step.max(1), fails)?;
    let is_empty = sink.bytes().is_empty();
    let [first, second, third] = row.pieces;
    let passes = [
        write_all(&mut sink, first).is_ok(),
        write_all(&mut sink, second).is_ok(),
        write_all(&mut sink, third).is_ok(),
    ];
    Ok(is_empty && passes == row.passes && sink.bytes() == row.taken)
}

#[test]
fn writes_whole_pieces_in_steps(rt: HostRuntime) -> Result<(), Fail> {
    for row in &WRITES {
        let writes = writes_as_stated(rt.alloc(), row)?;
        assert!(rt; writes, "{}", row.name);
    }
    Ok(())
}
