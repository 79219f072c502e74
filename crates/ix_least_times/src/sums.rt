//! Searches summed up.

use ix_least::Path;
use std::time::Duration;

/// Searches summed up: how long they took, how many paths there are, and a number folded from the
/// numbers of their edges.
#[derive(Clone, Copy)]
pub struct Sum {
    pub nanoseconds: u64,
    pub paths: u64,
    pub fold: u64,
}

/// Of no search.
pub const NOTHING: Sum = Sum {
    nanoseconds: 0,
    paths: 0,
    fold: 0,
};

/// Adds how long a search took.
pub fn with_time(sum: Sum, time: Duration) -> Sum {
    let seconds = time.as_secs().saturating_mul(1_000_000_000);
    let time = seconds.saturating_add(u64::from(time.subsec_nanos()));
    Sum {
        nanoseconds: sum.nanoseconds.saturating_add(time),
        paths: sum.paths,
        fold: sum.fold,
    }
}

/// Adds what a search found.
pub fn with_found(sum: Sum, found: &Option<Path>) -> Sum {
    let Some(path) = found else {
        return sum;
    };
    let mut fold = sum.fold;
    for i in 0..path.len() {
        let (edge, _) = path.at(i);
        fold = fold
            .wrapping_mul(31)
            .wrapping_add(u64::from(edge))
            .wrapping_add(1);
    }
    Sum {
        nanoseconds: sum.nanoseconds,
        paths: sum.paths.saturating_add(1),
        fold,
    }
}
