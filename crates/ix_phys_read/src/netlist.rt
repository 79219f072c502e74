//! The whole netlist.

ghost use Rattle.std.specs.Prelude.{◌≡◌, ◌<◌, [], length, Some, slice_get, IfOk};
ghost use Rattle.std.specs.List.{All};
ghost use Rattle.ix_frame.specs.Sound.{sound_text};
ghost use Rattle.ix_frame.specs.Views.{object_of};
ghost use Rattle.ix_message.specs.Indexes.{only_table, steps};
ghost use Rattle.ix_message.specs.Names.{record_of};
ghost use Rattle.ix_message.specs.Phys.{phys_netlist};
ghost use Rattle.ix_schema.specs.Said.{said};
ghost use Rattle.ix_phys_write.specs.Record.{phys_record, IsPhysNamed};
ghost use Rattle.ix_phys_read.specs.Forests.{HasForests};
ghost use Rattle.ix_phys_read.specs.Sound.{IsPassed};
ghost use Rattle.ix_take.specs.Views.{table_of, Takes};
ghost use Rattle.ix_take.specs.Walked.{walked};
ghost use Rattle.ix_phys_read.specs.Walked.{counted_structs};

use crate::context::PhysContext;
use ix_frame::Obj;
use ix_num::NameId;
use ix_rec::Phys;
use ix_take::{Stop, Walk, take_list};

/// The root among the kinds that are counted, which is its number in the table.
pub const NETLIST: usize = 5;

/// The record that a netlist's root makes, whose device has this name, or the first of its numbers
/// that is out of its list, in reading order.
pub fn take_netlist(
    root: Obj<'_>,
    part: NameId,
    ctx: &PhysContext<'_>,
    walk: &mut Walk,
) -> Result<Phys, Stop>
    requires passed { IsPassed (object_of root) }
    requires part { slice_get ctx.now.texts.names.now part ≡ Some (sound_text (object_of root) 0) }
    ensures made { Takes counted_structs (phys_record ctx.now.texts.names.now) result walk.new
        (record_of (table_of ctx.now.texts) phys_netlist (said phys_netlist (object_of root.entry)))
        (walked counted_structs walk.old
        (steps phys_netlist (only_table (length (table_of ctx.now.texts))) []
        (said phys_netlist (object_of root.entry)))) }
    ensures named { IfOk result (IsPhysNamed ctx.now.texts.names.now) }
    ensures preorder { IfOk result (λ phys. All HasForests phys.nets) }
{
    walk.begin(NETLIST);
    let placements = take_list(ctx.texts.alloc, root.sound_list(2), ctx, walk)?;
    let nets = take_list(ctx.texts.alloc, root.sound_list(3), ctx, walk)?;
    let site_insts = take_list(ctx.texts.alloc, root.sound_list(4), ctx, walk)?;
    let properties = take_list(ctx.texts.alloc, root.sound_list(5), ctx, walk)?;
    Ok(Phys {
        part,
        placements,
        nets,
        site_insts,
        properties,
    })
}
