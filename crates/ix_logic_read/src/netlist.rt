//! The whole netlist.

ghost use Rattle.std.specs.Prelude.{◌≡◌, [], Some, slice_get, IfOk};
ghost use Rattle.ix_frame.specs.Sound.{sound_elements, sound_text};
ghost use Rattle.ix_frame.specs.Views.{elements_of, object_of};
ghost use Rattle.ix_message.specs.Netlist.{netlist};
ghost use Rattle.ix_schema.specs.Said.{said};
ghost use Rattle.ix_take.specs.Views.{Takes};
ghost use Rattle.ix_take.specs.Walked.{walked};
ghost use Rattle.ix_logic_read.specs.Asking.{asks_in, made_in, root_asks};
ghost use Rattle.ix_logic_read.specs.Record.{netlist_record, IsNetlistNamed};
ghost use Rattle.ix_logic_read.specs.Structs.{netlist_structs};

use crate::context::NetlistContext;
use crate::entry::take_properties;
use ix_frame::Obj;
use ix_num::NameId;
use ix_rec::{CellInstance, NetlistRec};
use ix_take::{Stop, Take, Walk, take_list};

/// The record that a netlist's root makes, whose name is this, or the first of its numbers that is
/// out of its list, in reading order.
pub fn take_netlist(
    root: Obj<'_>,
    name: NameId,
    ctx: &NetlistContext<'_, '_>,
    walk: &mut Walk,
) -> Result<NetlistRec, Stop>
    requires name { slice_get ctx.now.texts.names.now name
        ≡ Some (sound_text (object_of root) 0) }
    requires decls { elements_of ctx.now.decls ≡ sound_elements (object_of root) 4 }
    requires ports { elements_of ctx.now.ports ≡ sound_elements (object_of root) 5 }
    requires insts { elements_of ctx.now.insts ≡ sound_elements (object_of root) 6 }
    ensures made { Takes netlist_structs (netlist_record ctx.now.texts.names.now) result walk.new
        (made_in netlist ctx.now (said netlist (object_of root.entry)))
        (walked netlist_structs walk.old
        (root_asks ctx.now (said netlist (object_of root.entry)))) }
    ensures named { IfOk result (IsNetlistNamed ctx.now.texts.names.now) }
{
    let alloc = ctx.texts.alloc;
    walk.begin(7);
    let prop_map = take_properties(root, 1, ctx, walk)?;
    let top_inst = CellInstance::take(root.sound_obj(2), ctx, walk)?;
    let cell_decls = take_list(alloc, ctx.decls, ctx, walk)?;
    let port_list = take_list(alloc, ctx.ports, ctx, walk)?;
    let inst_list = take_list(alloc, ctx.insts, ctx, walk)?;
    let cell_list = take_list(alloc, root.sound_list(7), ctx, walk)?;
    Ok(NetlistRec {
        name,
        prop_map,
        top_inst,
        cell_decls,
        port_list,
        inst_list,
        cell_list,
    })
}
