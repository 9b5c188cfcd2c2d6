ghost use Rattle.lrpar_cli.specs.Laws.{CompleteLaw, LoadedLaw, OneDueLaw, RoomLaw, ServedLaw};

/// Over a shelf that tells its bytes the words determine what is due: which names are read, the status, and the bytes
/// that both outputs take.
pub fn one_due_law()
    ensures { OneDueLaw }
{}

/// A call in which no count rose is answered or finds no memory; over a shelf that serves the names there is no read
/// fault, and over sinks with sure room for all that may be due no write fault.
pub fn complete_law()
    ensures complete { CompleteLaw }
    ensures served { ServedLaw }
    ensures room { RoomLaw }
{}

/// A call that runs a sample text never ends with the refusal of a text.
pub fn loaded_law()
    ensures { LoadedLaw }
{}
