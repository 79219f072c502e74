//! The segments of a net by number.

ghost use Rattle.std.specs.Prelude.{◌≡◌, ◌<◌, ◌↔◌, length, slice_get, Some, IsTrue};
ghost use Rattle.ix_legal.specs.Segments.{segments, IsSourceRoot};

use ix_rec::{Branch, PhysNet, Segment};

/// The segment of this number, with its depth: those of the sources come before those of the stubs.
pub(crate) fn branch_at(net: &PhysNet, k: usize) -> &Branch<Segment>
    requires { k < length (segments net.now) }
    ensures { slice_get (segments net.now) k ≡ Some result.now }
{
    let sources = net.sources.len();
    if k < sources {
        net.sources.at(k)
    } else {
        net.stubs.at(k - sources)
    }
}

/// Whether a segment is the root of a source tree.
pub(crate) fn is_source_root(net: &PhysNet, k: usize) -> bool
    requires { k < length (segments net.now) }
    ensures { IsTrue result ↔ IsSourceRoot net.now k }
{
    k < net.sources.len() && branch_at(net, k).depth == 0
}
