//! Segments by number.

ghost use Rattle.std.specs.Prelude.{◌≡◌, ◌<◌, length, Some};
ghost use Rattle.ix_legal.specs.Segments.{segments, segment_at};

use ix_rec::{PhysNet, Segment};

/// A net's segment of this number: those of its sources come before those of its stubs.
pub fn segment_at(net: &PhysNet, number: usize) -> &Segment
    requires { number < length (segments net.now) }
    ensures { segment_at net.now number ≡ Some result.now }
{
    let sources = net.sources.as_slice();
    if number < sources.len() {
        &sources[number].item
    } else {
        &net.stubs.as_slice()[number - sources.len()].item
    }
}
