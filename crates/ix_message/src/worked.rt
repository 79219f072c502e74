//! The definitions tried on whole files.

ghost use Rattle.std.specs.Prelude.{◌≡◌, [], ◌∷◌, Ok, Err, None, codes, length};
ghost use Rattle.ix_num.specs.declared.fault.FrameRule.TheVariants.{F1, F4};
ghost use Rattle.ix_message.specs.Message.{reading, encoding, numbers_of, frame, out_of_list};
ghost use Rattle.ix_message.specs.Device.{device};
ghost use Rattle.ix_message.specs.Names.{table_of};
ghost use Rattle.ix_message.specs.Netlist.{netlist};
ghost use Rattle.ix_message.specs.Phys.{phys_netlist};
ghost use Rattle.ix_message.specs.Packed.{packed};
ghost use Rattle.ix_message.specs.Worked.{file_of, small_file, small_record, empty_file};
ghost use Rattle.ix_message.specs.Worked.{empty_record, pair_file, pair_record, bus_file};
ghost use Rattle.ix_message.specs.Worked.{bus_record, tile_file, tile_record, whole_file};
ghost use Rattle.ix_message.specs.Worked.{whole_record, routed_file, routed_record, clusters_file};
ghost use Rattle.ix_message.specs.Worked.{clusters_record, self_pointer, no_declaration};
ghost use Rattle.ix_message.specs.Worked.{with_port_instance, with_branches, second, fitting};
ghost use Rattle.ix_message.specs.Worked.{with_rows, first};
ghost use Rattle.ix_message.specs.Indexes.{first_bad};

/// Records are written as these files, which another program wrote too.
pub fn written_files()
    ensures empty { encoding phys_netlist empty_record ≡ empty_file }
    ensures pair { encoding netlist pair_record ≡ pair_file }
    ensures bus { encoding netlist bus_record ≡ bus_file }
    ensures tile { encoding device tile_record ≡ tile_file }
    ensures whole { encoding device whole_record ≡ whole_file }
    ensures routed { encoding phys_netlist routed_record ≡ routed_file }
    ensures clusters { encoding packed clusters_record ≡ clusters_file }
{}

/// Files are read as these records, or with these faults.
pub fn read_files()
    ensures small { reading netlist small_file ≡ Ok small_record }
    ensures empty { reading phys_netlist empty_file ≡ Ok empty_record }
    ensures clusters { reading packed clusters_file ≡ Ok clusters_record }
    ensures points_at_itself { reading device self_pointer
        ≡ Err (frame (record { rule = F4; segment = 0; word = 0 })) }
    ensures cut { reading device [] ≡ Err (frame (record { rule = F1; segment = 0; word = 0 })) }
    ensures no_declaration { reading netlist no_declaration
        ≡ Err (out_of_list (record {
          kind = codes "CellInstance";
          field = codes "cell";
          index = 0;
        })) }
{}

/// The first field that doesn't fit, with the struct that has it, or none.
pub fn bad_fields()
    ensures fits { first_bad netlist 9 (with_port_instance (0 ∷ 0 ∷ 0 ∷ 1 ∷ 0 ∷ [])) ≡ None }
    ensures bit_of_bus { first_bad netlist 9 (with_port_instance (1 ∷ 1 ∷ 3 ∷ 1 ∷ 1 ∷ [])) ≡ None }
    ensures no_port { first_bad netlist 9 (with_port_instance (9 ∷ 0 ∷ 0 ∷ 1 ∷ 0 ∷ []))
        ≡ second "PortInstance" "port" }
    ensures lacked_port { first_bad netlist 9 (with_port_instance (0 ∷ 0 ∷ 0 ∷ 1 ∷ 1 ∷ []))
        ≡ second "PortInstance" "port" }
    ensures port_of_cell { first_bad netlist 9 (with_port_instance (0 ∷ 0 ∷ 0 ∷ 0 ∷ 0 ∷ []))
        ≡ second "PortInstance" "port" }
    ensures tag_of_bit { first_bad netlist 9 (with_port_instance (1 ∷ 0 ∷ 0 ∷ 1 ∷ 1 ∷ []))
        ≡ second "PortInstance" "bus_tag" }
    ensures past_bus { first_bad netlist 9 (with_port_instance (1 ∷ 1 ∷ 4 ∷ 1 ∷ 1 ∷ []))
        ≡ second "PortInstance" "idx" }
    ensures no_owner { first_bad netlist 9 (with_port_instance (0 ∷ 0 ∷ 0 ∷ 2 ∷ 1 ∷ []))
        ≡ second "PortInstance" "owner_tag" }
    ensures not_of_cell { first_bad netlist 9 (with_port_instance (0 ∷ 0 ∷ 0 ∷ 1 ∷ 2 ∷ []))
        ≡ second "PortInstance" "inst" }
    ensures no_instance { first_bad netlist 9 (with_port_instance (0 ∷ 0 ∷ 0 ∷ 1 ∷ 9 ∷ []))
        ≡ second "PortInstance" "inst" }
    ensures lacked_first { first_bad netlist 9 (with_port_instance (1 ∷ 1 ∷ 0 ∷ 1 ∷ 2 ∷ []))
        ≡ second "PortInstance" "port" }
    ensures third_unasked { first_bad phys_netlist 3
        (with_branches (1 ∷ 0 ∷ 1 ∷ 7 ∷ 0 ∷ []) (0 ∷ 0 ∷ 1 ∷ 2 ∷ 0 ∷ [])) ≡ None }
    ensures third_below { first_bad phys_netlist 3
        (with_branches (1 ∷ 0 ∷ 1 ∷ 7 ∷ 0 ∷ []) (2 ∷ 0 ∷ 1 ∷ 3 ∷ 1 ∷ []))
        ≡ second "RouteBranch" "third" }
    ensures kind_below { first_bad phys_netlist 3
        (with_branches (3 ∷ 0 ∷ 1 ∷ 2 ∷ 0 ∷ []) (4 ∷ 0 ∷ 1 ∷ 2 ∷ 0 ∷ []))
        ≡ second "RouteBranch" "kind_tag" }
{}

/// The first field of a device that doesn't fit, where a BEL or a package pin is changed.
pub fn device_fields()
    ensures fits { first_bad device 2 (with_rows fitting) ≡ None }
    ensures not_inverting { first_bad device 2
        (with_rows (record fitting { bel = 0 ∷ 2 ∷ 0 ∷ 9 ∷ 9 ∷ [] })) ≡ None }
    ensures inverting_pin { first_bad device 2
        (with_rows (record fitting { bel = 0 ∷ 2 ∷ 1 ∷ 2 ∷ 3 ∷ [] })) ≡ first "BEL" "invertingPin" }
    ensures non_inverting_pin { first_bad device 2
        (with_rows (record fitting { bel = 0 ∷ 2 ∷ 1 ∷ 3 ∷ 3 ∷ [] }))
        ≡ first "BEL" "nonInvertingPin" }
    ensures inversion { first_bad device 2 (with_rows
        (record fitting { bel = 0 ∷ 2 ∷ 2 ∷ 3 ∷ 3 ∷ [] })) ≡ first "BEL" "inversion_tag" }
    ensures category { first_bad device 2 (with_rows
        (record fitting { bel = 0 ∷ 3 ∷ 2 ∷ 3 ∷ 3 ∷ [] })) ≡ first "BEL" "category" }
    ensures package_site { first_bad device 2
        (with_rows (record fitting { package_pin = 0 ∷ 1 ∷ 7 ∷ [] })) ≡ first "PackagePin" "site" }
    ensures package_no_site { first_bad device 2
        (with_rows (record fitting { package_pin = 0 ∷ 0 ∷ 7 ∷ [] })) ≡ None }
{}

/// The first field of a device that doesn't fit, where a tile, a site, a wire or a pin is changed.
pub fn device_places()
    ensures tile_type { first_bad device 2 (with_rows (record fitting {
      tile = 0 ∷ 2 ∷ 9 ∷ 9 ∷ [];
      site = 1 ∷ 9 ∷ [];
    })) ≡ first "Tile" "type" }
    ensures site_type { first_bad device 2 (with_rows (record fitting { site = 1 ∷ 1 ∷ [] }))
        ≡ first "Site" "type" }
    ensures no_site_types { first_bad device 2
        (with_rows (record fitting { tile = 0 ∷ 0 ∷ 9 ∷ 9 ∷ []; site = 1 ∷ 0 ∷ [] }))
        ≡ first "Site" "type" }
    ensures node { first_bad device 2 (with_rows (record fitting { node = 0 ∷ 1 ∷ [] }))
        ≡ first "Node" "wires" }
    ensures site_pip { first_bad device 2 (with_rows (record fitting {
      site_pip = 2 ∷ 3 ∷ [];
      pins = 9 ∷ [];
    })) ≡ first "SitePIP" "outpin" }
    ensures site_wire { first_bad device 2 (with_rows (record fitting {
      pins = 2 ∷ 3 ∷ [];
      pip = 0 ∷ 5 ∷ 0 ∷ 0 ∷ [];
    })) ≡ first "SiteWire" "pins" }
    ensures pip { first_bad device 2 (with_rows (record fitting { pip = 0 ∷ 2 ∷ 0 ∷ 0 ∷ [] }))
        ≡ first "PIP" "wire1" }
    ensures pip_kind { first_bad device 2 (with_rows (record fitting { pip = 0 ∷ 1 ∷ 1 ∷ 2 ∷ [] }))
        ≡ first "PIP" "kind_tag" }
    ensures sources { first_bad device 2 (with_rows (record fitting { sources = 1 ∷ 2 ∷ [] }))
        ≡ first "WireConstantSources" "wires" }
{}

/// No number of these records is out of its list.
pub fn whole_records()
    ensures tile { first_bad device (length (table_of device tile_record))
        (numbers_of device tile_record) ≡ None }
    ensures whole { first_bad device (length (table_of device whole_record))
        (numbers_of device whole_record) ≡ None }
    ensures pair { first_bad netlist (length (table_of netlist pair_record))
        (numbers_of netlist pair_record) ≡ None }
    ensures bus { first_bad netlist (length (table_of netlist bus_record))
        (numbers_of netlist bus_record) ≡ None }
    ensures routed { first_bad phys_netlist (length (table_of phys_netlist routed_record))
        (numbers_of phys_netlist routed_record) ≡ None }
{}
