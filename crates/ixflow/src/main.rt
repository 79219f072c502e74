//! `ixflow`: packs, places and routes a design for an FPGA, by files after the FPGA Interchange
//! Format.
//!
//! The program is `ix_flow::run` over the files of the system and standard output, for the words of
//! the command line.
#![tactic(auto)]

mod words;

use crate::words::command_words;
use ix_flow::run;
use ix_shelf::{DiskShelf, OutSink};
use std::process::ExitCode;

// The status where no memory is found for the words.
const OUT_OF_MEMORY: u8 = 8;

fn main(rt: HostRuntime) -> ExitCode {
    match command_words(&rt, rt.alloc()) {
        Ok(words) => {
            let mut shelf = DiskShelf::new(&rt);
            let mut out = OutSink::new(&rt);
            let status = run(rt.alloc(), words.as_slice(), &mut shelf, &mut out);
            ExitCode::from(status.code())
        }
        Err(_) => ExitCode::from(OUT_OF_MEMORY),
    }
}
