//! L1 of nets as such.

ghost use Rattle.std.specs.Prelude.{◌<◌, ◌^◌, length, IfOk};
ghost use Rattle.ix_legal.specs.Names.{NetIsNamed};
ghost use Rattle.ix_walk.specs.Firsts.{TellsMisfit};
ghost use Rattle.ix_named_there.specs.Met.{MeetsNext};
ghost use Rattle.ix_named_there.specs.Parts.{AreInside, name_of};

use ix_num::Memory;
use ix_rec::{NetType, Phys, PhysNet};
use ix_walk::NameMarks;
use std::alloc::Global;

// What was met of nets: the names of signal nets, and whether there was a net of each constant.
#[derive(Drop)]
struct Met {
    signals: NameMarks,
    gnd: bool,
    vcc: bool,
}

// Meets a net, and says whether it is alone: whether none of its name, or of its constant, was met.
fn meet(met: &mut Met, net: &PhysNet) -> bool
    requires { net.now.name < length met.old.signals }
    ensures { MeetsNext met.old met.new net.now result }
{
    match net.ty {
        NetType::Signal => met.signals.add(net.name),
        NetType::Gnd => {
            let alone = !met.gnd;
            met.gnd = true;
            alone
        }
        NetType::Vcc => {
            let alone = !met.vcc;
            met.vcc = true;
            alone
        }
    }
}

/// The first net that has the name of a signal net before it, or the constant of a net before it.
/// The names of nets are below the count.
pub(crate) fn first_net(alloc: Global, phys: &Phys, count: u32) -> Result<Option<u32>, Memory>
    requires few { length phys.now.nets < 2 ^ 32 }
    requires inside { AreInside name_of phys.now.nets count }
    ensures { IfOk result (TellsMisfit (NetIsNamed phys.now) phys.now.nets) }
{
    let mut met = Met {
        signals: NameMarks::new(alloc, count)?,
        gnd: false,
        vcc: false,
    };
    for n in 0..phys.nets.len() {
        if !meet(&mut met, phys.nets.at(n)) {
            return Ok(Some(n as u32));
        }
    }
    Ok(None)
}
