//! Sets of numbers that are joined, each seen by its least number.
//!
//! A forest in which each number stands under a lesser one; the way up is halved as it is gone, as
//! J. van Leeuwen and T. van der Weide do, 1977. The lesser root stays, not that of the larger set.
//! A table has for each number itself, where it is the least of its set, or else a lesser one.

ghost use Rattle.std.specs.Prelude.{◌≡◌, ℕ, ◌<◌, ◌≤◌, length, slice_index, IfOk};
ghost use Rattle.ix_roots.specs.Forest.{AreUp, IsForest, KeepsRoots, Joins};

use ix_num::Memory;
use std::alloc::Global;

/// Each number alone: above each one stands itself. `Memory` is the only error.
#[tactic(auto, using(crate::proofs::Steps::alone_steps))]
pub fn alone(alloc: Global, count: u32) -> Result<Vec<u32>, Memory>
    ensures up { IfOk result (λ above. AreUp above.items) }
    ensures many { IfOk result (λ above. length above.items ≡ count) }
    ensures roots { IfOk result (λ above. IsForest above.items (λ k. k)) }
{
    let mut above = Vec::new(alloc);
    for number in 0..count {
        above.push(number)?;
    }
    Ok(above)
}

// The least of a number's set.
fn find(above: &mut [u32], number: u32) -> u32
    requires up { AreUp above.old }
    requires inside { number < length above.old }
    ensures up { AreUp above.new }
    ensures low { result ≤ number }
    ensures top { slice_index above.new result ≡ result }
    ensures keeps { KeepsRoots above.old above.new }
    ensures found { (root : ℕ → ℕ) → IsForest above.old root → result ≡ root number }
{
    let mut at = number;
    while above[at as usize] != at {
        let next = above[at as usize];
        above[at as usize] = above[next as usize];
        at = above[at as usize];
    }
    at
}

/// Joins the sets of two numbers.
pub fn join(above: &mut [u32], one: u32, other: u32)
    requires up { AreUp above.old }
    requires one { one < length above.old }
    requires other { other < length above.old }
    ensures up { AreUp above.new }
    ensures many { length above.new ≡ length above.old }
    ensures joins { (root : ℕ → ℕ) → IsForest above.old root
        → (next : ℕ → ℕ) × IsForest above.new next × Joins root next one other }
{
    let one = find(above, one);
    let other = find(above, other);
    if one < other {
        above[other as usize] = one;
    } else {
        above[one as usize] = other;
    }
}

/// The least number of each number's set, in place of the number above it.
pub fn settle(above: &mut [u32])
    requires up { AreUp above.old }
    ensures many { length above.new ≡ length above.old }
    ensures roots { (root : ℕ → ℕ) → IsForest above.old root
        → (k : ℕ) → k < length above.new → slice_index above.new k ≡ root k }
{
    for i in 0..above.len() {
        // That of a lesser one is there already.
        above[i] = above[above[i] as usize];
    }
}
