//! A route branch without the branches that follow it.

ghost use Rattle.std.specs.Prelude.{◌≡◌, ◌<◌, ◌==◌, ◌-◌, [], ◌∷◌, length, nat_lt, true, ℕ, IfOk};
ghost use Rattle.std.specs.Prelude.{slice_index};
ghost use Rattle.std.specs.Prelude.{if◌then◌else◌};
ghost use Rattle.ix_frame.specs.Objects.{u32_in};
ghost use Rattle.ix_frame.specs.Views.{object_of};
ghost use Rattle.ix_message.specs.Indexes.{ask_row, begun, only_table};
ghost use Rattle.ix_message.specs.Names.{data_of, datum_of, the_number};
ghost use Rattle.ix_message.specs.Phys.{segment};
ghost use Rattle.ix_message.specs.Shape.{name};
ghost use Rattle.ix_message.specs.Reading.{row_at};
ghost use Rattle.ix_phys_write.specs.Record.{kind_number, segment_row, third, IsSegmentNamed};
ghost use Rattle.ix_take.specs.Views.{table_of, Asked, Takes};
ghost use Rattle.ix_take.specs.Walked.{walked};
ghost use Rattle.ix_take.specs.declared.stop.Stop.TheVariants.{OutOfList};
ghost use Rattle.ix_phys_read.specs.Walked.{counted_structs};

use ix_frame::Obj;
use ix_num::NameId;
use ix_rec::{BranchKind, Segment};
use ix_take::{At, Context, KINDS, Stop, Walk};

/// Route branches among the kinds that are counted: after the structs of the table.
pub const BRANCH: usize = 6;

/// The kind of branch with this number.
fn kind_of(n: u16) -> BranchKind
    requires { n < 4 }
    ensures { kind_number result ≡ n }
{
    match n {
        0 => BranchKind::BelPin,
        1 => BranchKind::SitePin,
        2 => BranchKind::Pip,
        _ => BranchKind::SitePip,
    }
}

/// The third name of a branch of this kind. That of a site pin isn't looked at, and this one stands
/// there.
fn third_name(
    at: &At<'_>,
    ctx: &Context<'_>,
    walk: &Walk,
    kind: BranchKind,
    instead: NameId,
) -> Result<NameId, Stop>
    requires kind { at.now.kind < KINDS }
    requires named { instead < length ctx.now.names.now }
    ensures made { Asked (third ctx.now.names.now kind) result
        (if kind_number kind == 1 then true
        else nat_lt (u32_in (object_of at.now.o) 3) (length (table_of ctx.now)))
        (if kind_number kind == 1 then the_number 0
        else datum_of (table_of ctx.now) name (u32_in (object_of at.now.o) 3))
        (OutOfList at.now.kind 3 (slice_index walk.now at.now.kind - 1)) }
    ensures named { IfOk result (λ id. id < length ctx.now.names.now) }
{
    match kind {
        BranchKind::SitePin => Ok(instead),
        _ => at.name(ctx, walk, 3),
    }
}

/// The segment that a branch makes, or the first of its numbers that is out of its list. The third
/// name of a site pin isn't looked at; its second one stands there in the record.
pub fn take_segment(o: Obj<'_>, ctx: &Context<'_>, walk: &mut Walk) -> Result<Segment, Stop>
    ensures made { Takes counted_structs (segment_row ctx.now.names.now) result walk.new
        (data_of (table_of ctx.now) (row_at segment 0 (object_of o.entry)) segment
        (row_at segment 0 (object_of o.entry)))
        (walked counted_structs walk.old
        (begun "RouteBranch" ∷ ask_row (only_table (length (table_of ctx.now))) []
        "RouteBranch" (row_at segment 0 (object_of o.entry)) segment
        (row_at segment 0 (object_of o.entry)))) }
    ensures named { IfOk result (λ s. (d : ℕ) → IsSegmentNamed ctx.now.names.now
        record { depth = d; item = s }) }
{
    walk.begin(BRANCH);
    let at = At { o, kind: BRANCH };
    let kind = kind_of(at.tag(walk, 0, 4)?);
    let first = at.name(ctx, walk, 1)?;
    let second = at.name(ctx, walk, 2)?;
    let third = third_name(&at, ctx, walk, kind, second)?;
    Ok(Segment {
        kind,
        forward: o.bool_at(4),
        first,
        second,
        third,
    })
}
