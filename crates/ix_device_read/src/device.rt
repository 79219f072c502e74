//! The root.

ghost use Rattle.std.specs.Prelude.{◌≡◌, ◌<◌, ◌^◌, map, length, IfOk};
ghost use Rattle.ix_frame.specs.Sound.{sound_elements};
ghost use Rattle.ix_frame.specs.Views.{object_of, elements_of};
ghost use Rattle.ix_message.specs.Device.{device, tile_type};
ghost use Rattle.ix_rec.specs.Ranges.{IndexesFit};
ghost use Rattle.ix_schema.specs.Said.{said, each_said};
ghost use Rattle.ix_device_read.specs.Named.{limit, DeviceNamed};
ghost use Rattle.ix_device_read.specs.Numbers.{name_text};
ghost use Rattle.ix_device_read.specs.Records.{device_record};
ghost use Rattle.ix_device_read.specs.Sizes.{device_finished, device_sizes, site_type_count};
ghost use Rattle.ix_device_read.specs.Views.{sizes_of, Meets};

use crate::at::At;
use crate::context::{Context, Scope};
use crate::stop::Stop;
use crate::take::Take;
use crate::walk::Walk;
use ix_frame::{List, Obj};
use ix_num::{Memory, NameId};
use ix_rec::{DeviceRec, Items};
use ix_strings::Names;
use std::alloc::Global;

impl Take for DeviceRec {
    ghost use Rattle.ix_message.specs.Device.{device};
    ghost use Rattle.ix_device_read.specs.Records.{device_record};
    ghost use Rattle.ix_device_read.specs.Named.{DeviceNamed};

    ghost shape = { device };

    ghost record_by = { device_record };

    ghost named = { DeviceNamed };

    #[tactic(auto, unfolding(ix_schema::specs::Said::said, ix_message::specs::Reading::row_at, crate::specs::Finish::finish_at, crate::specs::Finish::finish_row, crate::specs::Views::kind_word, crate::specs::Views::field_word))]
    fn take(
        o: Obj<'_>,
        ctx: &Context<'_>,
        scope: Scope,
        walk: &mut Walk,
    ) -> Result<DeviceRec, Stop> {
        walk.begin(28);
        let at = At { o, kind: 28, scope };
        let inner = Scope {
            bel_pins: scope.bel_pins,
            tile_wires: scope.tile_wires,
            tile_type: 0,
        };
        let name = at.text(ctx, 0)?;
        let site_type_list = at.list(ctx, 2, inner, walk)?;
        let tile_type_list = at.list(ctx, 3, inner, walk)?;
        let tile_list = at.list(ctx, 4, inner, walk)?;
        let wires = at.list(ctx, 5, inner, walk)?;
        let nodes = at.list(ctx, 6, inner, walk)?;
        let cell_bel_map = at.list(ctx, 9, inner, walk)?;
        let packages = at.list(ctx, 10, inner, walk)?;
        let constants = at.option(ctx, 11, inner, walk)?;
        let lut_definitions = at.one(ctx, 12, inner, walk)?;
        Ok(DeviceRec {
            name,
            site_type_list,
            tile_type_list,
            tile_list,
            wires,
            nodes,
            cell_bel_map,
            packages,
            constants,
            lut_definitions,
        })
    }
}

/// Of each tile type of a list, how many types its sites have.
fn site_type_counts(alloc: Global, list: List<'_>) -> Result<Items<u32>, Memory>
    ensures counts { IfOk result (λ counts. counts
        ≡ map site_type_count (each_said (said tile_type) (elements_of list.entry).count
        (elements_of list.entry) 0)) }
    ensures few { IfOk result (λ counts. length counts < 2 ^ 32) }
{
    let mut counts = Items::with_capacity(alloc, list.len() as usize)?;
    for i in 0..list.len() {
        let count = list.at(i).sound_list(0).len();
        counts.push(count)?;
    }
    Ok(counts)
}

/// What the numbers of a device are asked against.
fn device_context<'n>(
    alloc: Global,
    names: &'n Names,
    strings: &'n [NameId],
    root: Obj<'_>,
    tile_types: &'n [u32],
) -> Context<'n>
    requires counts { tile_types.now ≡ map site_type_count
        (each_said (said tile_type) (sound_elements (object_of root) 3).count
        (sound_elements (object_of root) 3) 0) }
    requires few { length tile_types.now < 2 ^ 32 }
    ensures sizes { sizes_of result (record { bel_pins = 0; tile_wires = 0; tile_type = 0 })
        ≡ device_sizes (map (name_text names.now) strings.now) names.now
        (said device (object_of root.entry)) }
    ensures names { result.names.now ≡ names.now }
    ensures strings { result.strings.now ≡ strings.now }
{
    Context {
        alloc,
        names,
        strings,
        site_types: root.sound_list(2).len(),
        tile_types,
        wires: root.sound_list(5).len(),
    }
}

/// The record that a device's root makes, with the names of its string table and all its texts
/// among the names, or the first number that is out of its list, in reading order.
pub fn take_device(
    alloc: Global,
    names: &Names,
    strings: &[NameId],
    root: Obj<'_>,
) -> Result<DeviceRec, Stop>
    ensures made { Meets (device_record names.now) result
        (device_finished (map (name_text names.now) strings.now) names.now
        (said device (object_of root.entry))) }
    ensures named { IfOk result (DeviceNamed (limit strings.now names.now)) }
    ensures fits { IfOk result IndexesFit }
{
    let tile_types = site_type_counts(alloc, root.sound_list(3))?;
    let ctx = device_context(alloc, names, strings, root, tile_types.as_slice());
    let mut walk = Walk::new();
    let scope = Scope {
        bel_pins: 0,
        tile_wires: 0,
        tile_type: 0,
    };
    DeviceRec::take(root, &ctx, scope, &mut walk)
}
