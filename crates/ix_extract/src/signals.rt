//! Signal nets, numbered by themselves.

ghost use Rattle.std.specs.Prelude.{length, IfOk};
ghost use Rattle.ix_legal.specs.Legal.{IsSmall};
ghost use Rattle.ix_extract.specs.Taken.{AreSignals};

use ix_num::Memory;
use ix_rec::{FlatNet, Items, NetType, Phys};
use std::alloc::Global;

/// The signal nets of a netlist.
#[derive(Drop)]
pub(crate) struct SignalNets {
    /// They, in their order.
    pub nets: Items<FlatNet>,
    /// By the number of each net of the netlist, how many of them stand before it.
    pub ranks: Vec<u32>,
}

/// The signal nets of a netlist, without their drivers. `Memory` is the only error.
pub(crate) fn signal_nets(alloc: Global, phys: &Phys) -> Result<SignalNets, Memory>
    requires small { IsSmall phys.now }
    ensures { IfOk result (λ signals. AreSignals phys.now.nets (length phys.now.nets) signals.nets
        signals.ranks.items) }
{
    let mut nets = Items::new(alloc);
    let mut ranks = Vec::new(alloc);
    for n in 0..phys.nets.len() {
        let net = phys.nets.at(n);
        ranks.push(nets.len() as u32)?;
        if let NetType::Signal = net.ty {
            nets.push(FlatNet {
                name: net.name,
                driver: None,
            })?;
        }
    }
    Ok(SignalNets { nets, ranks })
}
