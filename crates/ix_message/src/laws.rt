//! Laws of the definitions.

ghost use Rattle.std.specs.Prelude.{◌≡◌, IsTrue};
ghost use Rattle.ix_message.specs.Device.{device};
ghost use Rattle.ix_message.specs.Message.{NamesAgain, ReadsAgain};
ghost use Rattle.ix_message.specs.Netlist.{netlist};
ghost use Rattle.ix_message.specs.Packed.{packed};
ghost use Rattle.ix_message.specs.Phys.{phys_netlist};
ghost use Rattle.ix_message.specs.Slots.{slots_agree};

/// Each slot that the code uses is the one that the tables give the field.
pub fn slots_are_those_of_the_tables()
    ensures { IsTrue slots_agree }
{}

/// The texts of a record of any message, which its file has as places in the string table, are
/// found again by that table.
pub fn names_stand_for_their_texts()
    ensures { NamesAgain }
{}

/// What is encoded reads again as itself, for each record of the four messages in which no number
/// is out of its list, unless its file is too long.
pub fn messages_read_again()
    ensures device { ReadsAgain device }
    ensures netlist { ReadsAgain netlist }
    ensures phys { ReadsAgain phys_netlist }
    ensures packed { ReadsAgain packed }
{}
