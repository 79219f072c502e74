//! Bits of instances by their written names.

ghost use Rattle.std.specs.Prelude.{◌≡◌, ◌<◌, ◌≤◌, ◌↔◌, length, IfOk, IsTrue, Some};
ghost use Rattle.ix_bit_rows.specs.Table.{start_in, end_in};
ghost use Rattle.ix_twice.specs.declared.entries.Entry.{Entry as EntrySeen};
ghost use Rattle.ix_twice.specs.Repeats.{IsLeast};
ghost use Rattle.ix_twice.specs.Entries.{IsEntryAt, IsEntry, AreEntries, IsEntryRepeatAt};
ghost use Rattle.ix_twice.specs.Entries.{IsEntryRepeat, HasEntry, IsLeastWritten};
ghost use Rattle.ix_twice.specs.Entries.{is_same_name as is_same, IsFirstAt};

use crate::repeats::{is_same_bit, least};
use ix_bit_rows::Rows;
use ix_num::{Memory, NameId};
use std::alloc::Global;

// A bit of an instance with the number of its written name and the first net that names it. They
// are in order by instance, name and net.
#[derive(Clone, Copy, PartialEq, Eq, PartialOrd, Ord)]
pub(crate) struct Entry {
    pub(crate) instance: u32,
    pub(crate) name: u32,
    pub(crate) net: u32,
    pub(crate) port: u32,
    pub(crate) index: u32,
}

// Whether a row is the first of its bit among those from `start` on.
fn is_first(rows: &Rows, start: usize, place: usize) -> bool
    requires from { start ≤ place }
    requires within { place < length rows.now.rows }
    ensures { IsTrue result ↔ IsFirstAt rows.now.rows start place }
{
    place == start || !is_same_bit(rows.at(place - 1), rows.at(place))
}

// The entry of a row's bit, where the row is the first of its bit from `start` on.
fn entry_at(rows: &Rows, written: &[NameId], start: usize, place: usize) -> Option<Entry>
    requires from { start ≤ place }
    requires within { place < length rows.now.rows }
    requires written { length written.now ≡ length rows.now.rows }
    ensures { (e : EntrySeen) → (result ≡ Some e)
        ↔ IsEntryAt rows.now.rows written.now start place e }
{
    let row = rows.at(place);
    if !is_first(rows, start, place) {
        return None;
    }
    Some(Entry {
        instance: row.instance,
        name: written[place].get(),
        net: row.net,
        port: row.port,
        index: row.index,
    })
}

// The entries of a cell's bits of instances, in the order of the rows.
fn entries_listed(
    alloc: Global,
    rows: &Rows,
    written: &[NameId],
    cell: u32,
) -> Result<Vec<Entry>, Memory>
    requires cell { cell < length rows.now.starts }
    requires written { length written.now ≡ length rows.now.rows }
    ensures { IfOk result (λ entries. (e : EntrySeen) → HasEntry entries.items e
        ↔ IsEntry rows.now.rows written.now (start_in rows.now cell) (end_in rows.now cell) e) }
{
    let start = rows.start(cell);
    let end = rows.end(cell);
    let mut entries = Vec::new(alloc);
    for place in start..end {
        if let Some(entry) = entry_at(rows, written, start, place) {
            entries.push(entry)?;
        }
    }
    Ok(entries)
}

// The entries of a cell, rising.
fn entries_of(
    alloc: Global,
    rows: &Rows,
    written: &[NameId],
    cell: u32,
) -> Result<Vec<Entry>, Memory>
    requires cell { cell < length rows.now.starts }
    requires written { length written.now ≡ length rows.now.rows }
    ensures { IfOk result (λ entries. AreEntries (IsEntry rows.now.rows written.now
        (start_in rows.now cell) (end_in rows.now cell)) entries.items) }
{
    let mut entries = entries_listed(alloc, rows, written, cell)?;
    entries.sort_unstable();
    entries.dedup();
    Ok(entries)
}

// Whether two entries are of one instance and one name.
fn is_same_name(a: Entry, b: Entry) -> bool
    ensures { result ≡ is_same a b }
{
    a.instance == b.instance && a.name == b.name
}

// The net of an entry that has the name of the entry before it.
fn entry_repeat_at(entries: &[Entry], place: usize) -> Option<u32>
    requires some { 0 < place }
    requires within { place < length entries.now }
    ensures { IsLeast (IsEntryRepeatAt entries.now place) result }
{
    let entry = entries[place];
    if is_same_name(entries[place - 1], entry) {
        Some(entry.net)
    } else {
        None
    }
}

// The first net that is the second to name a bit of an instance with one written name.
fn first_of_entries(entries: &[Entry]) -> Option<u32>
    ensures { IsLeast (IsEntryRepeat entries.now (length entries.now)) result }
{
    let count = entries.len();
    let mut found = None;
    if 1 < count {
        for place in 1..count {
            found = least(found, entry_repeat_at(entries, place));
        }
    }
    found
}

// The same in a cell.
pub(crate) fn first_written_twice(
    alloc: Global,
    rows: &Rows,
    written: &[NameId],
    cell: u32,
) -> Result<Option<u32>, Memory>
    requires cell { cell < length rows.now.starts }
    requires written { length written.now ≡ length rows.now.rows }
    ensures { IfOk result (λ found. IsLeastWritten rows.now.rows written.now
        (start_in rows.now cell) (end_in rows.now cell) found) }
{
    let entries = entries_of(alloc, rows, written, cell)?;
    Ok(first_of_entries(&entries))
}
