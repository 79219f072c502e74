//! How a run ends.

ghost use Rattle.std.specs.Prelude.{◌≡◌};
ghost use Rattle.ix_flow.specs.Status.{code_of, status_of};

use ix_rec::{File, Place, Rule, Word};
use ix_report::Report;

/// The status of a run.
#[derive(Debug, Drop)]
pub enum Status {
    /// The job is done.
    Done,
    /// `check` finds a broken rule: the least one, and its first place.
    No(Rule, Place),
    /// The words of the command line are refused.
    Usage,
    /// The first rule that a file breaks, and its first place, earlier files being valid.
    Bad(File, Rule, Place),
    /// The file is valid so far, and has parts that the program can't handle yet.
    NotBuilt(File),
    /// The netlist would have 2^27 words or more.
    TooLong,
    /// More cells of a type than BELs that admit it.
    TooFewBels {
        /// The cell type.
        kind: Word,
        /// How many cells of the type the design has.
        cells: u64,
        /// How many BELs of the device's sites admit it.
        bels: u64,
    },
    /// No site type can take a cell's group, even alone.
    Unpackable {
        /// The first cell of the group.
        cell: Word,
    },
    /// A cell finds no place.
    NoSite {
        /// The cell.
        cell: Word,
    },
    /// No walk leads to a sink.
    Unreachable {
        /// The net.
        net: Word,
        /// The node at which it has to arrive.
        node: Word,
    },
    /// Two nets hold one node.
    Congested {
        /// The node.
        node: Word,
        /// The earlier net.
        a: Word,
        /// The later net.
        b: Word,
        /// The rounds that were made.
        rounds: u32,
        /// The trial, from 1.
        trial: u32,
    },
    /// An input could not be read: a read of the shelf failed, or the file isn't there.
    ReadFault {
        /// The file's name.
        file: Word,
    },
    /// The output could not be written.
    WriteFault {
        /// The file's name.
        file: Word,
    },
    /// The job is done, and its line could not be printed whole.
    PutFault,
    /// Out of memory.
    OutOfMemory,
}

impl Status {
    /// The exit status of the process: 0 to 9.
    pub fn code(&self) -> u8
        ensures { result ≡ code_of self.now }
    {
        match self {
            Status::Done => 0,
            Status::No(_, _) => 1,
            Status::Usage => 2,
            Status::Bad(_, _, _) | Status::TooLong => 3,
            Status::TooFewBels { .. } | Status::Unpackable { .. } | Status::NoSite { .. } => 4,
            Status::Unreachable { .. } => 5,
            Status::Congested { .. } => 6,
            Status::ReadFault { .. } | Status::WriteFault { .. } | Status::PutFault => 7,
            Status::OutOfMemory => 8,
            Status::NotBuilt(_) => 9,
        }
    }
}

/// The status whose line a report is.
pub(crate) fn status_of(report: Report) -> Status
    ensures { result ≡ status_of report }
{
    match report {
        Report::Packed { .. }
        | Report::Placed { .. }
        | Report::Routed { .. }
        | Report::Implemented { .. }
        | Report::Yes { .. }
        | Report::Demo { .. } => Status::Done,
        Report::No { rule, place } => Status::No(rule, place),
        Report::Usage => Status::Usage,
        Report::Bad { file, rule, place } => Status::Bad(file, rule, place),
        Report::NotBuilt(file) => Status::NotBuilt(file),
        Report::TooLong => Status::TooLong,
        Report::TooFewBels { kind, cells, bels } => Status::TooFewBels { kind, cells, bels },
        Report::Unpackable { cell } => Status::Unpackable { cell },
        Report::NoSite { cell } => Status::NoSite { cell },
        Report::Unreachable { net, node } => Status::Unreachable { net, node },
        Report::Congested {
            node,
            a,
            b,
            rounds,
            trial,
        } => Status::Congested {
            node,
            a,
            b,
            rounds,
            trial,
        },
        Report::ReadFault { file } => Status::ReadFault { file },
        Report::WriteFault { file } => Status::WriteFault { file },
        Report::OutOfMemory => Status::OutOfMemory,
    }
}
