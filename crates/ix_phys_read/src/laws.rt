//! Laws of the definitions, each the contract of a function with nothing to do.

ghost use Rattle.std.specs.Prelude.{List, ℕ};
ghost use Rattle.ix_device_read.specs.Reading.{FileReads};
ghost use Rattle.ix_message.specs.Phys.{phys_netlist};
ghost use Rattle.ix_phys_read.specs.Again.{WrittenReadsAgain};

/// What `write_phys` gives is opened and read by `read_phys` as the same netlist. The three facts
/// that this asks of a file are the clauses `reads` of `write_phys`, `opened` of `Frame::open` and
/// `reading` of `read_phys`.
pub fn written_reads_again()
    ensures { WrittenReadsAgain }
{}

/// What `read_phys` says of the segments of an opened frame is the reading of the file itself.
pub fn files_read_as_their_segments()
    ensures { (bytes : List ℕ) → FileReads phys_netlist bytes }
{}
