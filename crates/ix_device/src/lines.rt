//! The lines of a LUT element, as they are found.

ghost use Rattle.std.specs.Prelude.{◌≡◌, ℕ, List, ◌<◌, ◌≤◌, ◌++◌, ◌∷◌, [], Some, length, map};
ghost use Rattle.std.specs.Prelude.{nat_eq, take, IfSome, IfNone};
ghost use Rattle.std.specs.List.{position};
ghost use Rattle.ix_device.specs.Shapes.{line_number, with_line, with_lines};

use std::marker::Model;

/// An element may have no more lines.
pub(crate) const MOST_LINES: usize = 12;

/// Lines of an element, each once, in the order in which they were found. In contracts it is the
/// list of them.
#[derive(Drop)]
pub(crate) struct Lines {
    wires: [u32; 12],
    count: usize,
}

impl Model for Lines {
    ghost use Rattle.std.specs.Prelude.{ℕ, List, take, ◌≤◌};

    ghost Value = { List ℕ };

    ghost view = { λ l. take l.count l.wires };

    ghost invariant = { λ l. l.count ≤ 12 };
}

impl Lines {
    /// No lines.
    pub(crate) fn new() -> Lines
        ensures { result ≡ [] }
    {
        Lines {
            wires: [0; 12],
            count: 0,
        }
    }

    /// How many lines there are.
    pub(crate) fn len(&self) -> u32
        ensures count { result ≡ length self.now }
        ensures few { length self.now ≤ 12 }
    {
        self.count as u32
    }

    // The place of a line; none where it is new.
    fn place_of(&self, wire: u32) -> Option<usize>
        ensures place { result ≡ position (nat_eq wire) self.now }
        ensures inside { IfSome result (λ k. k < 12) }
    {
        self.wires[..self.count].iter().position(|w| wire == *w)
    }

    // Adds a line, and tells its number; none where an element may have no more.
    fn push(&mut self, wire: u32) -> Option<u32>
        ensures some { IfSome result (λ n.
            (n ≡ length self.old) × (self.new ≡ self.old ++ wire ∷ [])) }
        ensures none { IfNone result (length self.old ≡ 12) }
    {
        let place = self.count;
        if place == MOST_LINES {
            return None;
        }
        self.wires[place] = wire;
        self.count = place + 1;
        Some(place as u32)
    }
}

// The number of a line, which is added where it is new; none where an element may have no more.
fn number_of_line(lines: &mut Lines, wire: u32) -> Option<u32>
    ensures added { IfSome result (λ n. lines.new ≡ with_line lines.old wire) }
    ensures number { IfSome result (λ n. position (nat_eq wire) lines.new ≡ Some n) }
    ensures none { IfNone result (12 < length (with_line lines.old wire)) }
{
    match lines.place_of(wire) {
        Some(place) => Some(place as u32),
        None => lines.push(wire),
    }
}

/// The numbers of a BEL's lines, which are added where they are new; none where an element may not
/// have so many.
pub(crate) fn numbers_of_lines(lines: &mut Lines, wires: &[u32]) -> Option<[u32; 6]>
    requires { length wires.now ≤ 6 }
    ensures added { IfSome result (λ numbers. lines.new ≡ with_lines lines.old wires.now) }
    ensures numbers { IfSome result (λ numbers. (more : List ℕ) →
        map (line_number (lines.new ++ more)) wires.now ≡ take (length wires.now) numbers) }
    ensures none { IfNone result (12 < length (with_lines lines.old wires.now)) }
{
    let mut numbers = [0; 6];
    for j in 0..wires.len() {
        match number_of_line(lines, wires[j]) {
            None => return None,
            Some(number) => numbers[j] = number,
        }
    }
    Some(numbers)
}
