//! Cells and nets.

ghost use Rattle.std.specs.Prelude.{◌≡◌, ℕ, IfOk};
ghost use Rattle.ix_frame.specs.Views.{numbers_of};
ghost use Rattle.ix_message.specs.Indexes.{has_number};

use crate::context::{CellContext, NetlistContext};
use crate::sorted::Sorted;
use ix_frame::{Numbers, Obj};
use ix_num::Memory;
use ix_rec::{Cell, Net};
use ix_take::{At, Stop, Take, Walk, take_list};
use std::alloc::Global;

impl<'c, 'n, 'a> Take<CellContext<'c, 'n, 'a>> for Net {
    ghost use Rattle.std.specs.Prelude.{[], ◌∷◌};
    ghost use Rattle.ix_message.specs.Indexes.{steps};
    ghost use Rattle.ix_message.specs.Netlist.{net};
    ghost use Rattle.ix_logic_read.specs.Asking.{any_struct, cell_entry, insts_in, lists_in};
    ghost use Rattle.ix_logic_read.specs.Asking.{made_in, ports_in};
    ghost use Rattle.ix_logic_read.specs.Owners.{HaveOwners};
    ghost use Rattle.ix_logic_read.specs.Record.{net_record, IsNetNamed};
    ghost use Rattle.ix_logic_read.specs.Structs.{netlist_structs};

    ghost structs = { netlist_structs };

    ghost shape = { net };

    ghost record_by = { λ c. net_record c.netlist.now.texts.names.now };

    ghost named = { λ c n. IsNetNamed c.netlist.now.texts.names.now (ports_in c.netlist.now)
        (insts_in c.netlist.now) n × HaveOwners (lists_in c.netlist.now) c.decl n };

    ghost sound = { λ c. any_struct };

    ghost made = { λ c. made_in net c.netlist.now };

    ghost asks = { λ c. steps net (lists_in c.netlist.now) (cell_entry c ∷ []) };

    fn take(o: Obj<'_>, ctx: &CellContext<'c, 'n, 'a>, walk: &mut Walk) -> Result<Net, Stop> {
        walk.begin(4);
        let at = At { o, kind: 4 };
        let name = at.name(&ctx.netlist.texts, walk, 0)?;
        let port_insts = take_list(ctx.netlist.texts.alloc, o.sound_list(0), ctx, walk)?;
        Ok(Net { name, port_insts })
    }
}

/// The numbers of a list, to be looked up.
fn sorted(alloc: Global, l: Numbers<'_>) -> Result<Sorted, Memory>
    ensures { IfOk result (λ s. (n : ℕ) → has_number s n ≡ has_number (numbers_of l.entry) n) }
{
    let mut numbers = Vec::with_capacity(alloc, l.len() as usize)?;
    for i in 0..l.len() {
        numbers.push(l.at(i) as u64)?;
    }
    Ok(Sorted::new(numbers))
}

impl<'n, 'a> Take<NetlistContext<'n, 'a>> for Cell {
    ghost use Rattle.ix_message.specs.Netlist.{cell};
    ghost use Rattle.ix_logic_read.specs.Asking.{any_struct, asks_in, decls_in, insts_in, made_in};
    ghost use Rattle.ix_logic_read.specs.Asking.{lists_in, ports_in};
    ghost use Rattle.ix_logic_read.specs.Owners.{AllHaveOwners};
    ghost use Rattle.ix_logic_read.specs.Record.{cell_record, IsCellNamed};
    ghost use Rattle.ix_logic_read.specs.Structs.{netlist_structs};

    ghost structs = { netlist_structs };

    ghost shape = { cell };

    ghost record_by = { λ c. cell_record c.texts.names.now };

    ghost named = { λ c cell. IsCellNamed c.texts.names.now (decls_in c) (ports_in c) (insts_in c)
        cell × AllHaveOwners (lists_in c) cell };

    ghost sound = { λ c. any_struct };

    ghost made = { made_in cell };

    ghost asks = { asks_in cell };

    fn take(o: Obj<'_>, ctx: &NetlistContext<'n, 'a>, walk: &mut Walk) -> Result<Cell, Stop> {
        walk.begin(5);
        let at = At { o, kind: 5 };
        let alloc = ctx.texts.alloc;
        let index = at.index(walk, 0, ctx.decl_count())?;
        let listed = o.sound_numbers(0);
        let insts = at.indexes(alloc, listed, walk, 1, ctx.inst_count())?;
        let scope = CellContext {
            netlist: ctx,
            decl: index,
            insts: sorted(alloc, listed)?,
        };
        let nets = take_list(alloc, o.sound_list(1), &scope, walk)?;
        Ok(Cell { index, insts, nets })
    }
}
