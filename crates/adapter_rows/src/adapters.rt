//! Rows of the adapters over files of the runtime and over streams.

use lr_base::{
    ErrSink, Failed, FileShelf, OutSink, ReadFault, Shelf, Sink, StreamSink, Text, read_all,
    write_all,
};
use std::alloc::Global;
use std::io::{self, ErrorKind, Write};
use std::test::Fail;
use std::{env, fs, process};

/// A stream that takes so many bytes at a time, and of which the write with one number fails, counted from 1.
#[derive(Drop)]
struct StepStream<'a> {
    taken: &'a mut Vec<u8>,
    step: usize,
    failing: u64,
    writes: u64,
}

impl Write for StepStream<'_> {
    fn write(&mut self, buf: &[u8]) -> io::Result<usize> {
        self.writes = self.writes.saturating_add(1);
        if self.writes == self.failing {
            return Err(io::Error::from(ErrorKind::Other));
        }
        let count = buf.len().min(self.step);
        self.taken.extend_from_slice(&buf[..count])?;
        Ok(count)
    }

    fn flush(&mut self) -> io::Result<()> {
        Ok(())
    }
}

/// Two pieces, `abcde` and then `fg`, that are written to a stream, whether each passes, and what the stream takes.
struct StreamRow {
    name: &'static str,
    step: usize,
    failing: u64,
    passes: [bool; 2],
    taken: &'static [u8],
}

static STREAMS: [StreamRow; 6] = [
    StreamRow {
        name: "all bytes at a time",
        step: 100,
        failing: 100,
        passes: [true, true],
        taken: b"abcdefg",
    },
    StreamRow {
        name: "one byte at a time",
        step: 1,
        failing: 100,
        passes: [true, true],
        taken: b"abcdefg",
    },
    StreamRow {
        name: "two bytes at a time, of which the second write fails",
        step: 2,
        failing: 2,
        passes: [false, true],
        taken: b"abfg",
    },
    StreamRow {
        name: "the first write fails",
        step: 100,
        failing: 1,
        passes: [false, true],
        taken: b"fg",
    },
    StreamRow {
        name: "the second piece fails",
        step: 100,
        failing: 2,
        passes: [true, false],
        taken: b"abcde",
    },
    StreamRow {
        name: "no byte at a time",
        step: 0,
        failing: 100,
        passes: [false, false],
        taken: b"",
    },
];

/// Which of the two pieces pass over the row's stream.
fn pass_pieces(row: &StreamRow, taken: &mut Vec<u8>) -> [bool; 2] {
    let mut sink = StreamSink::new(StepStream {
        taken,
        step: row.step,
        failing: row.failing,
        writes: 0,
    });
    [
        write_all(&mut sink, b"abcde").is_ok(),
        write_all(&mut sink, b"fg").is_ok(),
    ]
}

fn passes_as_stated(alloc: Global, row: &StreamRow) -> bool {
    let mut taken = Vec::new(alloc);
    let passes = pass_pieces(row, &mut taken);
    passes == row.passes && taken.as_slice() == row.taken
}

/// Whether a vector takes what is written to it as a stream.
fn passes_to_vector(alloc: Global) -> bool {
    let mut taken = Vec::new(alloc);
    let mut sink = StreamSink::new(&mut taken);
    let passes = sink.write(b"") == Ok(0) && write_all(&mut sink, b"abc").is_ok();
    passes && taken.as_slice() == b"abc".as_slice()
}

#[test]
fn passes_bytes_to_streams(rt: HostRuntime) {
    for row in &STREAMS {
        assert!(rt; passes_as_stated(rt.alloc(), row), "{}", row.name);
    }
    assert!(rt; passes_to_vector(rt.alloc()), "a vector as a stream");
}

#[test]
fn passes_bytes_to_both_outputs(rt: HostRuntime) {
    let mut out = OutSink::new(rt.stdout());
    let mut err = ErrSink::new(rt.stderr());
    assert_eq!(rt;
        write_all(&mut out, b"to standard output\n"),
        Ok(()),
        "standard output"
    );
    assert_eq!(rt;
        write_all(&mut err, b"to standard error\n"),
        Ok(()),
        "standard error"
    );
}

/// The bytes of the test's own file, which take more than one read.
const FILE_BYTES: usize = 100_000;

fn reads_as<S: Shelf>(alloc: Global, shelf: &mut S, name: &str, bytes: &[u8]) -> bool {
    match read_all(alloc, shelf, name, FILE_BYTES) {
        Ok(Text::Whole(read)) => read.as_slice() == bytes,
        _ => false,
    }
}

fn is_too_long<S: Shelf>(alloc: Global, shelf: &mut S, name: &str) -> bool {
    matches!(
        read_all(alloc, shelf, name, FILE_BYTES - 1),
        Ok(Text::TooLong)
    )
}

/// Whether neither the name can be read, nor a read after that.
fn fails_twice<S: Shelf>(alloc: Global, shelf: &mut S, name: &str) -> bool {
    matches!(
        read_all(alloc, shelf, name, FILE_BYTES),
        Err(ReadFault::Failed)
    ) && shelf.read(&mut [0; 8]) == Err(Failed)
}

#[test]
fn reads_files_of_the_runtime(rt: HostRuntime) -> Result<(), Fail> {
    let alloc = rt.alloc();
    let folder = env::temp_dir(&rt)?;
    let path = format!(in alloc;
        "{}/lrpar_rows_{}",
        folder.as_str(),
        process::id(rt.process())
    )?;
    let missing = format!(in alloc; "{path}_missing")?;
    let mut bytes = Vec::new(alloc);
    for at in 0..FILE_BYTES {
        bytes.push((at % 251) as u8)?;
    }
    fs::write(&rt, path.as_str(), bytes.as_slice())?;
    let mut shelf = FileShelf::new(&rt);
    let unbegun = shelf.read(&mut [0; 8]);
    let readings = [
        reads_as(alloc, &mut shelf, &path, &bytes),
        is_too_long(alloc, &mut shelf, &path),
        fails_twice(alloc, &mut shelf, &missing),
        fails_twice(alloc, &mut shelf, folder.as_str()),
        reads_as(alloc, &mut shelf, &path, &bytes),
    ];
    fs::remove_file(&rt, path.as_str())?;
    assert_eq!(rt; unbegun, Err(Failed), "a read where nothing is begun");
    assert_eq!(rt;
        readings,
        [true; 5],
        "a file, a limit of one byte less, no file, a folder, and the file again"
    );
    assert!(rt; fails_twice(alloc, &mut shelf, &path), "the removed file");
    Ok(())
}
