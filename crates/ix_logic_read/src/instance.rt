//! Instances and declarations of cells.

use crate::context::NetlistContext;
use crate::entry::take_properties;
use ix_frame::Obj;
use ix_rec::{CellDeclaration, CellInstance};
use ix_take::{At, Stop, Take, Walk};

impl<'n, 'a> Take<NetlistContext<'n, 'a>> for CellInstance {
    ghost use Rattle.ix_message.specs.Netlist.{cell_instance};
    ghost use Rattle.ix_logic_read.specs.Asking.{any_struct, asks_in, decls_in, made_in};
    ghost use Rattle.ix_logic_read.specs.Record.{cell_instance_record, IsInstanceNamed};
    ghost use Rattle.ix_logic_read.specs.Structs.{netlist_structs};

    ghost structs = { netlist_structs };

    ghost shape = { cell_instance };

    ghost record_by = { λ c. cell_instance_record c.texts.names.now };

    ghost named = { λ c. IsInstanceNamed c.texts.names.now (decls_in c) };

    ghost sound = { λ c. any_struct };

    ghost made = { made_in cell_instance };

    ghost asks = { asks_in cell_instance };

    fn take(
        o: Obj<'_>,
        ctx: &NetlistContext<'n, 'a>,
        walk: &mut Walk,
    ) -> Result<CellInstance, Stop> {
        walk.begin(1);
        let at = At { o, kind: 1 };
        let name = at.name(&ctx.texts, walk, 0)?;
        let cell = at.index(walk, 1, ctx.decl_count())?;
        let prop_map = take_properties(o, 0, ctx, walk)?;
        Ok(CellInstance {
            name,
            cell,
            prop_map,
        })
    }
}

impl<'n, 'a> Take<NetlistContext<'n, 'a>> for CellDeclaration {
    ghost use Rattle.ix_message.specs.Netlist.{cell_declaration};
    ghost use Rattle.ix_logic_read.specs.Asking.{any_struct, asks_in, made_in, ports_in};
    ghost use Rattle.ix_logic_read.specs.Record.{cell_declaration_record, IsDeclarationNamed};
    ghost use Rattle.ix_logic_read.specs.Structs.{netlist_structs};

    ghost structs = { netlist_structs };

    ghost shape = { cell_declaration };

    ghost record_by = { λ c. cell_declaration_record c.texts.names.now };

    ghost named = { λ c. IsDeclarationNamed c.texts.names.now (ports_in c) };

    ghost sound = { λ c. any_struct };

    ghost made = { made_in cell_declaration };

    ghost asks = { asks_in cell_declaration };

    fn take(
        o: Obj<'_>,
        ctx: &NetlistContext<'n, 'a>,
        walk: &mut Walk,
    ) -> Result<CellDeclaration, Stop> {
        walk.begin(2);
        let at = At { o, kind: 2 };
        let name = at.name(&ctx.texts, walk, 0)?;
        let ports = at.indexes(
            ctx.texts.alloc,
            o.sound_numbers(0),
            walk,
            1,
            ctx.port_count(),
        )?;
        Ok(CellDeclaration { name, ports })
    }
}
