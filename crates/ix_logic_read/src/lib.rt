//! The reader of logical netlists.
#![tactic(auto, unfolding(ix_schema::specs::Said::said, ix_message::specs::Reading::row_at, ix_message::specs::Indexes::steps, ix_message::specs::Names::record_of, ix_take::specs::Walked::walked, ix_take::specs::Views::kind_word, ix_take::specs::Views::field_word, crate::specs::Asking::lists_in,))]

mod cell;
mod context;
mod entry;
mod instance;
mod names;
mod netlist;
mod pins;
mod port;
mod port_instance;
mod read;
mod sorted;
mod table;

pub use read::read_netlist;
