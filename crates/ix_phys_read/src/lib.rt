//! The reader of physical netlists.
#![tactic(auto, unfolding(ix_schema::specs::Said::said, ix_message::specs::Reading::row_at, ix_message::specs::Indexes::steps, ix_message::specs::Names::record_of, ix_take::specs::Walked::walked, ix_take::specs::Views::kind_word, ix_take::specs::Views::field_word,))]

mod branches;
mod cells;
mod context;
mod laws;
mod names;
mod netlist;
mod nets;
mod read;
mod segment;

pub use laws::{files_read_as_their_segments, written_reads_again};
pub use read::read_phys;
