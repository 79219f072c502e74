//! Files as frames, and what devices are refused for, in words.

use ix_device::DeviceFault;
use ix_frame::Frame;
use ix_num::FrameFault;
use ix_rec::{Place, ReadFault};
use std::alloc::AllocError;

/// The most bytes that a frame may have.
const MOST_BYTES: usize = 1 << 30;

/// A file's bytes as a frame, where there are few enough.
pub fn open(bytes: &[u8]) -> Option<Result<Frame<'_>, FrameFault>> {
    if bytes.len() <= MOST_BYTES {
        Some(Frame::open(bytes))
    } else {
        None
    }
}

/// Writes the rule that a file breaks, and where.
pub fn put_fault(text: &mut String, fault: &ReadFault) -> Result<(), AllocError> {
    match fault {
        ReadFault::Frame(fault) => write!(text, "{fault}"),
        ReadFault::Index(Place::Item { kind, field, index }) => {
            let kind = kind.as_str();
            let field = field.as_str();
            write!(text, "I1 at {kind}.{field} {index}")
        }
        ReadFault::Index(_) => text.push_str("another place"),
        ReadFault::Memory => text.push_str("out of memory"),
    }
}

/// Writes the rule that a record breaks, and where.
pub fn put_breach(text: &mut String, fault: &DeviceFault) -> Result<(), AllocError> {
    match fault {
        DeviceFault::Broken(rule, Place::Item { kind, field, index }) => {
            let kind = kind.as_str();
            let field = field.as_str();
            write!(text, "{rule:?} at {kind}.{field} {index}")
        }
        DeviceFault::Broken(_, _) => text.push_str("another place"),
        DeviceFault::Memory => text.push_str("out of memory"),
    }
}
