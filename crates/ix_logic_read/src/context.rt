//! What the numbers of a logical netlist are asked against.

ghost use Rattle.ix_logic_read.specs.Pins.{AreHeld};
ghost use Rattle.ix_frame.specs.Views.{elements_of};

use crate::pins::pin;
use crate::sorted::Sorted;
use ix_frame::List;
use ix_take::Context;

/// What the numbers of a logical netlist are asked against.
#[derive(Drop)]
pub struct NetlistContext<'n, 'a> {
    /// The string table and the names.
    pub texts: Context<'n>,
    /// The declarations of cells, the ports and the instances, in the frame.
    pub decls: List<'a>,
    pub ports: List<'a>,
    pub insts: List<'a>,
    /// The ports of each declaration.
    pub held: Sorted,
    ghost held_are: { AreHeld held (elements_of decls) },
}

/// What the nets of a cell are asked against besides.
#[derive(Drop)]
pub struct CellContext<'c, 'n, 'a> {
    /// The netlist.
    pub netlist: &'c NetlistContext<'n, 'a>,
    /// The cell's own declaration.
    pub decl: u32,
    /// Its instances.
    pub insts: Sorted,
}

impl<'n, 'a> NetlistContext<'n, 'a> {
    ghost use Rattle.std.specs.Prelude.{◌≡◌, ◌<◌, ◌+◌, length, slice_index};
    ghost use Rattle.ix_message.specs.Indexes.{bus_width, entry_at, has_number};
    ghost use Rattle.ix_message.specs.Indexes.{ports_of_declaration};
    ghost use Rattle.ix_logic_read.specs.Asking.{lists_in};

    /// How many declarations there are.
    pub fn decl_count(&self) -> u32
        ensures { result ≡ length (lists_in self.now).cell_decl_list }
    {
        self.decls.len()
    }

    /// How many ports there are.
    pub fn port_count(&self) -> u32
        ensures { result ≡ length (lists_in self.now).port_list }
    {
        self.ports.len()
    }

    /// How many instances there are.
    pub fn inst_count(&self) -> u32
        ensures { result ≡ length (lists_in self.now).instance_list }
    {
        self.insts.len()
    }

    /// Whether the declaration has the port.
    pub fn has_port(&self, decl: u32, port: u32) -> bool
        ensures { result ≡ has_number (ports_of_declaration (lists_in self.now) decl) port }
    {
        self.held.has(pin(decl, port))
    }

    /// The declaration of an instance.
    pub fn declaration_of(&self, inst: u32) -> u32
        requires { inst < length (lists_in self.now).instance_list }
        ensures { result
            ≡ slice_index (entry_at (lists_in self.now).instance_list inst).row 1 }
    {
        self.insts.at(inst).u32_at(1)
    }

    /// Whether a port is a bit, or a bus.
    pub fn port_kind(&self, port: u32) -> u16
        requires { port < length (lists_in self.now).port_list }
        ensures { result ≡ slice_index (entry_at (lists_in self.now).port_list port).row 2 }
    {
        self.ports.at(port).tag_at(2)
    }

    /// The place of a bus' last bit.
    pub fn last_bit(&self, port: u32) -> u32
        requires { port < length (lists_in self.now).port_list }
        ensures { result + 1 ≡ bus_width (lists_in self.now) port }
    {
        let port = self.ports.at(port);
        port.u32_at(3).abs_diff(port.u32_at(4))
    }
}
