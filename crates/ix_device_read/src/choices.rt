//! Tags and enumerants.

use ix_rec::{Category, ConstantPreference, Direction, LutEquation, PipKind};

/// A tag or an enumerant.
pub trait Choice: Sized + Drop {
    ghost use Rattle.std.specs.Prelude.{◌≡◌, ◌≤◌, ◌<◌, ℕ, MatchOption};

    /// Its number.
    ghost number: { Self → ℕ };

    /// How many there are.
    ghost most: { ℕ };

    /// That with this number.
    fn of(n: u16) -> Option<Self>
        ensures { MatchOption result (most ≤ n) (λ x. (number x ≡ n) × (n < most)) };
}

impl Choice for Direction {
    ghost use Rattle.ix_device_read.specs.Numbers.{direction_number};

    ghost number = { direction_number };

    ghost most = { 3 };

    fn of(n: u16) -> Option<Direction> {
        match n {
            0 => Some(Direction::Input),
            1 => Some(Direction::Output),
            2 => Some(Direction::Inout),
            _ => None,
        }
    }
}

impl Choice for Category {
    ghost use Rattle.ix_device_read.specs.Numbers.{category_number};

    ghost number = { category_number };

    ghost most = { 3 };

    fn of(n: u16) -> Option<Category> {
        match n {
            0 => Some(Category::Logic),
            1 => Some(Category::Routing),
            2 => Some(Category::SitePort),
            _ => None,
        }
    }
}

impl Choice for ConstantPreference {
    ghost use Rattle.ix_device_read.specs.Numbers.{constant_number};

    ghost number = { constant_number };

    ghost most = { 3 };

    fn of(n: u16) -> Option<ConstantPreference> {
        match n {
            0 => Some(ConstantPreference::NoPreference),
            1 => Some(ConstantPreference::Gnd),
            2 => Some(ConstantPreference::Vcc),
            _ => None,
        }
    }
}

impl Choice for PipKind {
    ghost use Rattle.ix_device_read.specs.Numbers.{pip_kind_number};

    ghost number = { pip_kind_number };

    ghost most = { 2 };

    fn of(n: u16) -> Option<PipKind> {
        match n {
            0 => Some(PipKind::Conventional),
            1 => Some(PipKind::PseudoCells),
            _ => None,
        }
    }
}

impl Choice for LutEquation {
    ghost use Rattle.ix_device_read.specs.Numbers.{equation_number};

    ghost number = { equation_number };

    ghost most = { 2 };

    fn of(n: u16) -> Option<LutEquation> {
        match n {
            0 => Some(LutEquation::Invalid),
            1 => Some(LutEquation::InitParam),
            _ => None,
        }
    }
}
