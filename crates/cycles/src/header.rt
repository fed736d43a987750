// A header: the numbers of its columns, read into lent memory from the last to the first.
ghost use Rattle.std.specs.Prelude.{ℕ, ◌≡◌, ◌≤◌, ◌<◌, [], length, get_or, unwrap_or, IfSome, MatchOption};
ghost use Rattle.checking.specs.definitions.Scope.{entity_named};
ghost use Rattle.cycles.specs.definitions.Fields.{split};
ghost use Rattle.cycles.specs.definitions.Header.{column_of_entity, column};
ghost use Rattle.cycles.specs.inner_contracts.HeaderReads;
ghost use Rattle.cycles.specs.inner_contracts.HeaderReads.{ColumnRead, backwards, is_number_among, ColumnsRead, HeaderRead};
ghost use Rattle.checking.specs.inner_contracts.OfColumns.{of_file};

use crate::fields::field_start;
use crate::layout::{BY_BYTES, ENTITY_COLUMNS, MOST_HEADER_BYTES, PRESENCE_COLUMN};
use checking::Columns;
use checking::layout::ENTITY_INTERFACE_ROWS;
use text::classes::EVENT;
use values::same_bytes;

/// A header that is read: the numbers of its columns, the last one first.
#[derive(Clone, Copy)]
pub struct Header<'a> {
    pub columns: &'a [u16],
    ghost known: { (k : ℕ) → k < length columns.now → get_or columns.now k 0 < HeaderReads.NO_COLUMN },
}

impl<'a> Header<'a> {
    /// The header that is read into the first `count` of those columns.
    #[tactic(auto, using(crate::proofs::laws::ColumnLaws::backwards_taken))]
    pub fn new(columns: &'a [u16], count: usize) -> Self
        requires { (count ≤ length columns.now) × ((k : ℕ) → k < count → get_or columns.now k 0 < HeaderReads.NO_COLUMN) }
        ensures size { length result.columns.now ≡ count }
        ensures same { backwards count result.columns.now ≡ backwards count columns.now }
    {
        Header {
            columns: &columns[..count],
        }
    }

    /// The header that a line of names is, read into lent memory; none, where it is no header.
    pub fn read(bench: &Columns<'_>, names: &[u8], columns: &'a mut [u16]) -> Option<Self>
        requires { HeaderReads.MOST_COLUMNS ≤ length columns.old }
        ensures { MatchOption result (of_file HeaderRead bench.now names.now [] HeaderReads.NO_HEADER)
            (λ header. (length header.columns.now ≤ HeaderReads.MOST_COLUMNS) × of_file HeaderRead bench.now names.now header.columns.now (length header.columns.now)) }
    {
        let count = read_header(bench, names, columns)?;
        Some(Header::new(columns, count))
    }
}

// The column of an event by the names of its entity and of itself.
fn event_column(columns: &Columns<'_>, owner: &[u8], member: &[u8]) -> Option<usize>
    ensures read { of_file ColumnRead columns.now
        (λ f. column_of_entity f (entity_named f owner.now) member.now) (unwrap_or result HeaderReads.NO_COLUMN) }
    ensures below { IfSome result (λ column. column < HeaderReads.NO_COLUMN) }
{
    let e = columns.entity(owner)?;
    let face = columns.row(ENTITY_INTERFACE_ROWS + e);
    let m = columns.member(face, member)?;
    if columns.member_sort(face, m) != EVENT {
        return None;
    }
    Some(e * ENTITY_COLUMNS + m)
}

// The column that a field of a header names.
fn column_called(columns: &Columns<'_>, field: &[u8]) -> Option<usize>
    ensures read { of_file ColumnRead columns.now
        (λ f. column f (split 46 field.now)) (unwrap_or result HeaderReads.NO_COLUMN) }
    ensures below { IfSome result (λ column. column < HeaderReads.NO_COLUMN) }
{
    let size = field.len();
    let last = field_start(field, size, 46);
    if last == 0 {
        let e = columns.entity(field)?;
        return Some(e * ENTITY_COLUMNS + PRESENCE_COLUMN);
    }
    let end = last - 1;
    if field_start(field, end, 46) != 0 {
        return None;
    }
    event_column(columns, &field[0..end], &field[last..size])
}

// Is the column among the first `count` that were read?
#[tactic(auto, using(crate::proofs::laws::ColumnLaws::among_here, crate::proofs::laws::ColumnLaws::among_before, crate::proofs::laws::ColumnLaws::among_none))]
fn is_read(columns: &[u16], count: usize, column: u16) -> bool
    requires { count ≤ length columns.now }
    ensures { result ≡ is_number_among column (backwards count columns.now) }
{
    for k in (0..count).rev() {
        if column == columns[k] {
            return true;
        }
    }
    false
}

// Reads the columns after `n`, the last one first: how many they are.
#[tactic(auto, using(crate::proofs::steps::HeaderLaws::columns_next))]
fn read_columns(bench: &Columns<'_>, names: &[u8], columns: &mut [u16]) -> Option<usize>
    requires { HeaderReads.MOST_COLUMNS ≤ length columns.old }
    ensures read { of_file ColumnsRead bench.now names.now columns.new (unwrap_or result HeaderReads.NO_HEADER) }
    ensures few { IfSome result (λ count. count ≤ HeaderReads.MOST_COLUMNS) }
{
    let mut end = names.len();
    let mut count: usize = 0;
    loop {
        let start = field_start(names, end, 32);
        if start == 0 {
            if same_bytes(&names[0..end], b"n") {
                return Some(count);
            }
            return None;
        }
        let column = column_called(bench, &names[start..end])?;
        let number = column as u16;
        if is_read(columns, count, number) {
            return None;
        }
        columns[count] = number;
        count += 1;
        end = start - 1;
    }
}

/// Reads a header, `by n` and its columns, into lent memory: how many columns it has; none, where it is no header.
pub fn read_header(bench: &Columns<'_>, names: &[u8], columns: &mut [u16]) -> Option<usize>
    requires { HeaderReads.MOST_COLUMNS ≤ length columns.old }
    ensures read { of_file HeaderRead bench.now names.now columns.new (unwrap_or result HeaderReads.NO_HEADER) }
    ensures few { IfSome result (λ count. count ≤ HeaderReads.MOST_COLUMNS) }
{
    if MOST_HEADER_BYTES < names.len() {
        return None;
    }
    if names.len() < BY_BYTES {
        return None;
    }
    if !same_bytes(&names[0..BY_BYTES], b"by ") {
        return None;
    }
    read_columns(bench, &names[BY_BYTES..], columns)
}
