//! Rows of one bit, and the least of nets.

ghost use Rattle.std.specs.Prelude.{◌≡◌, ◌<◌, ◌≤◌, length};
ghost use Rattle.ix_bit_rows.specs.Table.{start_in, end_in};
ghost use Rattle.ix_twice.specs.Repeats.{is_same_bit as is_same, least_of, IsLeast, IsRepeatAt};
ghost use Rattle.ix_twice.specs.Repeats.{IsRepeat};

use ix_bit_rows::Rows;
use ix_hierarchy::Row;

// Whether two rows are of one bit of one owner.
pub(crate) fn is_same_bit(a: Row, b: Row) -> bool
    ensures { result ≡ is_same a b }
{
    a.instance == b.instance && (a.port == b.port && a.index == b.index)
}

// The lesser of two nets that may be there.
pub(crate) fn least(a: Option<u32>, b: Option<u32>) -> Option<u32>
    ensures { result ≡ least_of a b }
{
    match a {
        None => b,
        Some(x) => match b {
            None => Some(x),
            Some(y) => { if x <= y { Some(x) } else { Some(y) } }
        },
    }
}

// The net of a row that is of the bit of the row before it.
fn repeat_at(rows: &Rows, place: usize) -> Option<u32>
    requires some { 0 < place }
    requires within { place < length rows.now.rows }
    ensures { IsLeast (IsRepeatAt rows.now.rows place) result }
{
    let row = rows.at(place);
    if is_same_bit(rows.at(place - 1), row) {
        Some(row.net)
    } else {
        None
    }
}

// The first net of a cell that names a bit which an earlier one names.
pub(crate) fn first_on_two(rows: &Rows, cell: u32) -> Option<u32>
    requires { cell < length rows.now.starts }
    ensures { IsLeast (IsRepeat rows.now.rows (start_in rows.now cell) (end_in rows.now cell))
        result }
{
    let start = rows.start(cell);
    let end = rows.end(cell);
    let mut found = None;
    if start < end {
        for place in start + 1..end {
            found = least(found, repeat_at(rows, place));
        }
    }
    found
}
