//! What an occupancy tells, as a line.

ghost use Rattle.std.specs.Prelude.{◌≡◌, length};

use ix_num::NodeId;
use ix_occupy::Occupancy;
use std::alloc::{AllocError, Global};
use std::fmt::Write;

/// For each node the number of its holders, of those but one of them, and its history; then the
/// number of shared nodes, and the first of them.
pub(crate) fn told(alloc: Global, occupancy: &Occupancy, nodes: u32) -> Result<String, AllocError>
    requires { length occupancy.now ≡ nodes }
{
    let mut line = String::new(alloc);
    for n in 0..nodes {
        let node = NodeId::new(n);
        let holders = occupancy.others(node, false);
        let others = if holders > 0 {
            occupancy.others(node, true)
        } else {
            0
        };
        let hist = occupancy.hist(node);
        write!(line, "{n}: {holders} held, {others} others, hist {hist}; ")?;
    }
    let shared = occupancy.shared_count();
    match occupancy.first_shared() {
        Some(node) => {
            let first = node.get();
            write!(line, "shared {shared}, first {first}")?;
        }
        None => write!(line, "shared {shared}, first none")?,
    }
    Ok(line)
}
