ghost use Rattle.std.specs.Prelude.{◌≡◌};
ghost use Rattle.answer_theory.specs.Codes.{code_of};

/// How a call of the program ended.
#[derive(Clone, Copy, Debug, PartialEq, Eq)]
pub enum Status {
    /// The command's work is done: its inputs were read to their ends, and the output took all its bytes.
    Done,
    /// The text's tokens are no sentence of the sheet's grammar.
    TextRefused,
    /// The words are of no form.
    BadWords,
    /// The sheet is refused.
    SheetRefused,
    /// An input could not be read.
    ReadFault,
    /// A sink did not take all its bytes.
    WriteFault,
    /// Memory ran out.
    NoMemory,
    /// The text has too many bytes.
    TextTooLong,
    /// A token of the sample text has no word.
    NoSample,
}

impl Status {
    /// The exit status: 0 done, 1 text refused, 2 bad words, 3 sheet refused, 4 read fault, 5 write fault, 6 no memory, 7 text too long, 8 no sample.
    pub fn code(&self) -> u8
        ensures { result ≡ code_of self.now }
    {
        match self {
            Status::Done => 0,
            Status::TextRefused => 1,
            Status::BadWords => 2,
            Status::SheetRefused => 3,
            Status::ReadFault => 4,
            Status::WriteFault => 5,
            Status::NoMemory => 6,
            Status::TextTooLong => 7,
            Status::NoSample => 8,
        }
    }
}
