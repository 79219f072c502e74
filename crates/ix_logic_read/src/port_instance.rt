//! The port bits that nets join.

ghost use Rattle.std.specs.Prelude.{◌≡◌, ◌<◌, ◌-◌, ◌%◌, ◌^◌, length, slice_index, IfOk, IfSome};
ghost use Rattle.std.specs.Prelude.{if◌then◌else◌, Some, None, IsSome};
ghost use Rattle.ix_frame.specs.Objects.{u32_in};
ghost use Rattle.ix_frame.specs.Views.{object_of};
ghost use Rattle.ix_message.specs.Indexes.{fits, has_owner, owner_declaration};
ghost use Rattle.ix_message.specs.Names.{datum_of, kind_in, the_number};
ghost use Rattle.ix_message.specs.Shape.{port_of_owner, bus_tag, bus_bit, instance_of_cell, by_tag};
ghost use Rattle.ix_message.specs.Shape.{nothing};
ghost use Rattle.ix_take.specs.Views.{table_of, Asked};
ghost use Rattle.ix_take.specs.declared.stop.Stop.TheVariants.{OutOfList};
ghost use Rattle.ix_logic_read.specs.Asking.{lists_in, pin_row, pin_around};
ghost use Rattle.ix_logic_read.specs.Record.{bus_number, owner_number, owner_instance};

use crate::context::CellContext;
use ix_frame::Obj;
use ix_rec::{PortIndexing, PortInstance, PortOwner};
use ix_take::{At, KINDS, Stop, Take, Walk};

/// The declaration whose port is meant: that of the instance, or of the cell itself. None where the
/// instance isn't there, or no owner has this tag.
fn declaration_of_owner(o: Obj<'_>, ctx: &CellContext<'_, '_, '_>) -> Option<u32>
    ensures { result ≡ (if has_owner (lists_in ctx.now.netlist.now) (pin_row (object_of o.entry))
        then Some (owner_declaration (lists_in ctx.now.netlist.now) (pin_around ctx.now)
        (pin_row (object_of o.entry))) else None) }
{
    match o.tag_at(3) {
        0 => Some(ctx.decl),
        1 => {
            let inst = o.u32_at(4);
            if inst < ctx.netlist.inst_count() {
                Some(ctx.netlist.declaration_of(inst))
            } else {
                None
            }
        }
        _ => None,
    }
}

/// The port that is meant, one of the owner's declaration.
fn port_of(at: &At<'_>, ctx: &CellContext<'_, '_, '_>, walk: &Walk) -> Result<u32, Stop>
    requires { at.now.kind < KINDS }
    ensures made { Asked (λ n. the_number n) result
        (fits (lists_in ctx.now.netlist.now) (pin_around ctx.now) (pin_row (object_of at.now.o))
        port_of_owner (u32_in (object_of at.now.o) 0))
        (the_number (u32_in (object_of at.now.o) 0))
        (OutOfList at.now.kind 0 (slice_index walk.now at.now.kind - 1)) }
    ensures is { IfOk result (λ n. n ≡ u32_in (object_of at.now.o) 0) }
    ensures below { IfOk result (λ n. n < length (lists_in ctx.now.netlist.now).port_list) }
{
    let port = at.o.u32_at(0);
    if port >= ctx.netlist.port_count() {
        return Err(at.stop(walk, 0));
    }
    let is_there = match declaration_of_owner(at.o, ctx) {
        Some(decl) => ctx.netlist.has_port(decl, port),
        None => true,
    };
    if is_there {
        Ok(port)
    } else {
        Err(at.stop(walk, 0))
    }
}

/// Whether one bit of a bus is meant, as the port is a bus or a bit.
fn bus_of(
    at: &At<'_>,
    ctx: &CellContext<'_, '_, '_>,
    walk: &Walk,
    port: u32,
) -> Result<PortIndexing, Stop>
    requires kind { at.now.kind < KINDS }
    requires port { port < length (lists_in ctx.now.netlist.now).port_list }
    requires is { port ≡ u32_in (object_of at.now.o) 0 }
    ensures made { Asked (λ b. the_number (bus_number b)) result
        (fits (lists_in ctx.now.netlist.now) (pin_around ctx.now) (pin_row (object_of at.now.o))
        bus_tag (u32_in (object_of at.now.o) 1 % 2 ^ 16))
        (the_number (u32_in (object_of at.now.o) 1 % 2 ^ 16))
        (OutOfList at.now.kind 1 (slice_index walk.now at.now.kind - 1)) }
{
    let tag = at.o.tag_at(1);
    if tag != ctx.netlist.port_kind(port) {
        return Err(at.stop(walk, 1));
    }
    match tag {
        0 => Ok(PortIndexing::SingleBit),
        1 => Ok(PortIndexing::Idx),
        _ => Err(at.stop(walk, 1)),
    }
}

/// Which bit of a bus is meant, one that the bus has.
fn bit_of(
    at: &At<'_>,
    ctx: &CellContext<'_, '_, '_>,
    walk: &Walk,
    port: u32,
    bus: PortIndexing,
) -> Result<u32, Stop>
    requires kind { at.now.kind < KINDS }
    requires port { port < length (lists_in ctx.now.netlist.now).port_list }
    requires is { port ≡ u32_in (object_of at.now.o) 0 }
    requires bus { bus_number bus ≡ u32_in (object_of at.now.o) 1 % 2 ^ 16 }
    ensures made { Asked (λ n. the_number n) result
        (fits (lists_in ctx.now.netlist.now) (pin_around ctx.now) (pin_row (object_of at.now.o))
        bus_bit (u32_in (object_of at.now.o) 2))
        (the_number (u32_in (object_of at.now.o) 2))
        (OutOfList at.now.kind 2 (slice_index walk.now at.now.kind - 1)) }
{
    let bit = at.o.u32_at(2);
    match bus {
        PortIndexing::SingleBit => Ok(bit),
        PortIndexing::Idx => {
            if bit <= ctx.netlist.last_bit(port) {
                Ok(bit)
            } else {
                Err(at.stop(walk, 2))
            }
        }
    }
}

/// Whose port is meant, by this tag: one of the cell's instances, or the cell itself.
fn owner_of(
    at: &At<'_>,
    ctx: &CellContext<'_, '_, '_>,
    walk: &Walk,
    tag: u16,
) -> Result<PortOwner, Stop>
    requires kind { at.now.kind < KINDS }
    requires tag { tag < 2 }
    requires is { tag ≡ u32_in (object_of at.now.o) 3 % 2 ^ 16 }
    ensures made { Asked (λ o. the_number (owner_instance o)) result
        (fits (lists_in ctx.now.netlist.now) (pin_around ctx.now) (pin_row (object_of at.now.o))
        (by_tag 3 1 instance_of_cell nothing) (u32_in (object_of at.now.o) 4))
        (datum_of (table_of ctx.now.netlist.now.texts)
        (kind_in (pin_row (object_of at.now.o)) (by_tag 3 1 instance_of_cell nothing))
        (u32_in (object_of at.now.o) 4))
        (OutOfList at.now.kind 4 (slice_index walk.now at.now.kind - 1)) }
    ensures tag { IfOk result (λ o. owner_number o ≡ tag) }
{
    if tag != 1 {
        return Ok(PortOwner::ExtPort);
    }
    let inst = at.o.u32_at(4);
    if inst < ctx.netlist.inst_count() && ctx.insts.has(inst as u64) {
        Ok(PortOwner::Inst(inst))
    } else {
        Err(at.stop(walk, 4))
    }
}

impl<'c, 'n, 'a> Take<CellContext<'c, 'n, 'a>> for PortInstance {
    ghost use Rattle.std.specs.Prelude.{[], ◌∷◌};
    ghost use Rattle.ix_message.specs.Indexes.{no_entry, steps};
    ghost use Rattle.ix_message.specs.Names.{record_of};
    ghost use Rattle.ix_message.specs.Netlist.{port_instance};
    ghost use Rattle.ix_logic_read.specs.Asking.{cell_entry, any_struct, ports_in, insts_in};
    ghost use Rattle.ix_logic_read.specs.Owners.{HasOwner};
    ghost use Rattle.ix_logic_read.specs.Record.{port_instance_record, IsPortInstanceWithin};
    ghost use Rattle.ix_logic_read.specs.Structs.{netlist_structs};

    ghost structs = { netlist_structs };

    ghost shape = { port_instance };

    ghost record_by = { λ c. port_instance_record };

    ghost named = { λ c p. IsPortInstanceWithin (ports_in c.netlist.now) (insts_in c.netlist.now) p
        × HasOwner (lists_in c.netlist.now) c.decl p };

    ghost sound = { λ c. any_struct };

    ghost made = { λ c. record_of (table_of c.netlist.now.texts) port_instance };

    ghost asks = { λ c. steps port_instance (lists_in c.netlist.now)
        (no_entry ∷ cell_entry c ∷ []) };

    fn take(
        o: Obj<'_>,
        ctx: &CellContext<'c, 'n, 'a>,
        walk: &mut Walk,
    ) -> Result<PortInstance, Stop> {
        walk.begin(3);
        let at = At { o, kind: 3 };
        let port = port_of(&at, ctx, walk)?;
        let bus = bus_of(&at, ctx, walk, port)?;
        let idx = bit_of(&at, ctx, walk, port, bus)?;
        let tag = at.tag(walk, 3, 2)?;
        let owner = owner_of(&at, ctx, walk, tag)?;
        Ok(PortInstance {
            port,
            bus,
            idx,
            owner,
        })
    }
}
