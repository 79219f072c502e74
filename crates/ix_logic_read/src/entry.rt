//! Properties.

ghost use Rattle.std.specs.Prelude.{◌≡◌, ◌<◌, ◌-◌, ◌%◌, ◌^◌, [], ◌∷◌, map, slice_index, IfOk};
ghost use Rattle.std.specs.List.{flat_map, All};
ghost use Rattle.ix_frame.specs.Objects.{u32_in};
ghost use Rattle.ix_frame.specs.Views.{object_of};
ghost use Rattle.ix_message.specs.Indexes.{fits};
ghost use Rattle.ix_message.specs.Names.{datum_of, kind_in};
ghost use Rattle.ix_message.specs.Netlist.{entry};
ghost use Rattle.ix_message.specs.Shape.{by_tag, name, number, flag};
ghost use Rattle.ix_schema.specs.Said.{said, each_said};
ghost use Rattle.ix_take.specs.Views.{table_of, Asked, Takes};
ghost use Rattle.ix_take.specs.Walked.{walked};
ghost use Rattle.ix_take.specs.declared.stop.Stop.TheVariants.{OutOfList};
ghost use Rattle.ix_logic_read.specs.Asking.{asks_in, boxed_list, entry_row, lists_in, made_in};
ghost use Rattle.ix_logic_read.specs.Record.{properties_record, value_datum, value_number};
ghost use Rattle.ix_logic_read.specs.Record.{IsEntryNamed, IsValueNamed};
ghost use Rattle.ix_logic_read.specs.Structs.{netlist_structs};

use crate::context::NetlistContext;
use ix_frame::Obj;
use ix_rec::{Entry, PropertyMap, PropertyValue};
use ix_take::{At, KINDS, Stop, Take, Walk, take_list};

/// The value of a property, by this tag.
#[tactic(auto, unfolding(crate::specs::Asking::lists_in))]
fn value_of(
    at: &At<'_>,
    ctx: &NetlistContext<'_, '_>,
    walk: &Walk,
    tag: u16,
) -> Result<PropertyValue, Stop>
    requires kind { at.now.kind < KINDS }
    requires tag { tag < 3 }
    requires is { tag ≡ u32_in (object_of at.now.o) 1 % 2 ^ 16 }
    ensures made { Asked (value_datum ctx.now.texts.names.now) result
        (fits (lists_in ctx.now) [] (entry_row (object_of at.now.o))
        (by_tag 1 0 name (by_tag 1 1 number flag)) (u32_in (object_of at.now.o) 2))
        (datum_of (table_of ctx.now.texts)
        (kind_in (entry_row (object_of at.now.o)) (by_tag 1 0 name (by_tag 1 1 number flag)))
        (u32_in (object_of at.now.o) 2))
        (OutOfList at.now.kind 2 (slice_index walk.now at.now.kind - 1)) }
    ensures tag { IfOk result (λ v. value_number v ≡ tag) }
    ensures named { IfOk result (IsValueNamed ctx.now.texts.names.now) }
{
    match tag {
        0 => {
            let id = at.name(&ctx.texts, walk, 2)?;
            Ok(PropertyValue::Text(id))
        }
        1 => Ok(PropertyValue::Int(at.o.u32_at(2))),
        _ => Ok(PropertyValue::Bool(at.o.bool_at(2))),
    }
}

impl<'n, 'a> Take<NetlistContext<'n, 'a>> for Entry {
    ghost use Rattle.ix_logic_read.specs.Asking.{any_struct};
    ghost use Rattle.ix_logic_read.specs.Record.{entry_record};

    ghost structs = { netlist_structs };

    ghost shape = { entry };

    ghost record_by = { λ c. entry_record c.texts.names.now };

    ghost named = { λ c. IsEntryNamed c.texts.names.now };

    ghost sound = { λ c. any_struct };

    ghost made = { made_in entry };

    ghost asks = { asks_in entry };

    fn take(o: Obj<'_>, ctx: &NetlistContext<'n, 'a>, walk: &mut Walk) -> Result<Entry, Stop> {
        walk.begin(0);
        let at = At { o, kind: 0 };
        let key = at.name(&ctx.texts, walk, 0)?;
        let tag = at.tag(walk, 1, 3)?;
        let value = value_of(&at, ctx, walk, tag)?;
        Ok(Entry { key, value })
    }
}

/// The properties behind a pointer.
pub fn take_properties(
    o: Obj<'_>,
    slot: u32,
    ctx: &NetlistContext<'_, '_>,
    walk: &mut Walk,
) -> Result<PropertyMap, Stop>
    ensures made { Takes netlist_structs (properties_record ctx.now.texts.names.now) result walk.new
        (map (made_in entry ctx.now) (each_said (said entry)
        (boxed_list (object_of o.entry) slot).count (boxed_list (object_of o.entry) slot) 0))
        (walked netlist_structs walk.old (flat_map (asks_in entry ctx.now) (each_said (said entry)
        (boxed_list (object_of o.entry) slot).count (boxed_list (object_of o.entry) slot) 0))) }
    ensures named { IfOk result (λ p. All (IsEntryNamed ctx.now.texts.names.now) p.entries) }
{
    let entries = take_list(ctx.texts.alloc, o.sound_obj(slot).sound_list(0), ctx, walk)?;
    Ok(PropertyMap { entries })
}
