// The chosen cells of a day sheet: the numbers of their cells, read from a text into lent memory from the last to the first, and what is asked
// of those cells.
ghost use Rattle.std.specs.Prelude.{ℕ, ◌≡◌, ◌≤◌, ◌<◌, [], length, get_or, unwrap_or, IfSome, MatchOption};
ghost use Rattle.checking.specs.definitions.Scope.{entity_named};
ghost use Rattle.cycles.specs.definitions.Fields.{split};
ghost use Rattle.senders.specs.definitions.StateImage;
ghost use Rattle.sheets.specs.definitions.Layout;
ghost use Rattle.days.specs.definitions.Chosen.{spot_of_entity, spot_named};
ghost use Rattle.days.specs.inner_contracts.Choosing;
ghost use Rattle.days.specs.inner_contracts.Choosing.{SpotRead, ChosenRead, RealRead, SpotValue, RealsRead, CellsRead};
ghost use Rattle.checking.specs.inner_contracts.OfColumns.{of_names};
ghost use Rattle.cycles.specs.inner_contracts.Bundles.{of_members};
ghost use Rattle.cycles.specs.inner_contracts.HeaderReads.{backwards};

use checking::Columns;
use checking::layout::{ENTITY_COUNT_ROW, ENTITY_INTERFACE_ROWS, MOST_ENTITIES};
use cycles::fields::field_start;
use cycles::layout::ENTITY_CELLS;
use cycles::{Store, cell_token};
use senders::layout::HEAD_BYTES;
use sheets::layout::MOST_CHOSEN;
use text::classes::REAL;
use values::Value;

/// The chosen cells of a day sheet by their numbers, the last one first.
#[derive(Clone, Copy)]
pub struct Chosen<'a> {
    pub spots: &'a [u16],
    ghost few: { length spots.now ≤ Layout.MOST_CHOSEN },
    ghost known: { (k : ℕ) → k < length spots.now → get_or spots.now k 0 < Choosing.NO_SPOT },
}

impl<'a> Chosen<'a> {
    /// The list that is read into the first `count` of those numbers.
    #[tactic(auto, using(cycles::proofs::laws::ColumnLaws::backwards_taken))]
    pub fn new(spots: &'a [u16], count: usize) -> Self
        requires { (count ≤ Layout.MOST_CHOSEN) × (count ≤ length spots.now) × ((k : ℕ) → k < count → get_or spots.now k 0 < Choosing.NO_SPOT) }
        ensures size { length result.spots.now ≡ count }
        ensures same { backwards count result.spots.now ≡ backwards count spots.now }
    {
        Chosen {
            spots: &spots[..count],
        }
    }
}

// The cell of a member by the names of its entity and of itself.
fn member_spot(columns: &Columns<'_>, owner: &[u8], member: &[u8]) -> Option<usize>
    ensures read { of_names SpotRead columns.now
        (λ f. spot_of_entity f (entity_named f owner.now) member.now) (unwrap_or result Choosing.NO_SPOT) }
    ensures below { IfSome result (λ spot. spot < Choosing.NO_SPOT) }
{
    let e = columns.entity(owner)?;
    let face = columns.row(ENTITY_INTERFACE_ROWS + e);
    let m = columns.member(face, member)?;
    Some(e * ENTITY_CELLS + m)
}

// The cell that a field names.
fn spot_called(columns: &Columns<'_>, field: &[u8]) -> Option<usize>
    ensures read { of_names SpotRead columns.now
        (λ f. spot_named f (split 46 field.now)) (unwrap_or result Choosing.NO_SPOT) }
    ensures below { IfSome result (λ spot. spot < Choosing.NO_SPOT) }
{
    let size = field.len();
    let last = field_start(field, size, 46);
    if last == 0 {
        return None;
    }
    let end = last - 1;
    if field_start(field, end, 46) != 0 {
        return None;
    }
    member_spot(columns, &field[0..end], &field[last..size])
}

/// Reads the numbers of the chosen cells, the last one first, and answers how many they are; none, where the text is no list.
pub fn read_spots(columns: &Columns<'_>, cells: &[u8], spots: &mut [u16]) -> Option<usize>
    requires { Layout.MOST_CHOSEN ≤ length spots.old }
    ensures read { of_names ChosenRead columns.now cells.now spots.new (unwrap_or result Choosing.NO_LIST) }
    ensures few { IfSome result (λ count. count ≤ Layout.MOST_CHOSEN) }
{
    let mut end = cells.len();
    for k in 0..MOST_CHOSEN {
        let start = field_start(cells, end, 32);
        let spot = spot_called(columns, &cells[start..end])?;
        spots[k] = spot as u16;
        if start == 0 {
            return Some(k + 1);
        }
        end = start - 1;
    }
    None
}

/// The chosen cells that a list names, read into lent memory; none, where it is no list.
pub fn choose<'a>(columns: &Columns<'_>, cells: &[u8], spots: &'a mut [u16]) -> Option<Chosen<'a>>
    requires { Layout.MOST_CHOSEN ≤ length spots.old }
    ensures { MatchOption result (of_names ChosenRead columns.now cells.now [] Choosing.NO_LIST) (λ chosen. of_names ChosenRead columns.now cells.now chosen.spots.now (length chosen.spots.now)) }
{
    let count = read_spots(columns, cells, spots)?;
    Some(Chosen::new(spots, count))
}

// Is the cell of that number one of a real member?
#[tactic(auto, using(crate::proofs::laws::ChosenReads::real_by_class))]
fn is_real_spot(columns: &Columns<'_>, spot: usize) -> bool
    ensures { of_members RealRead columns.now spot result }
{
    let at = cell_token(columns.d, spot);
    columns.class_at(at + 3) == REAL
}

/// Which of a few cells are real, in the order of the text; the cells by their numbers, the last one first.
pub fn real_cells(columns: &Columns<'_>, spots: &[u16]) -> [bool; MOST_CHOSEN]
    requires { length spots.now ≤ Layout.MOST_CHOSEN }
    ensures { of_members RealsRead columns.now spots.now (length spots.now) result }
{
    let mut reals = [false; MOST_CHOSEN];
    let count = spots.len();
    for k in 0..count {
        reals[k] = is_real_spot(columns, spots[count - 1 - k] as usize);
    }
    reals
}

// What the cell of that number reads.
#[tactic(auto, using(crate::proofs::laws::ChosenReads::spot_valued))]
fn read_spot(flags: &[u8], cells: &[u8], spot: usize) -> Value
    requires { spot < Choosing.NO_SPOT }
    ensures { SpotValue flags.now cells.now spot result }
{
    let e = (spot / ENTITY_CELLS) as u8;
    let m = (spot % ENTITY_CELLS) as u8;
    let store = Store { flags, cells };
    store.read_cell(e, m)
}

/// What the chosen cells read now, in the order of the text.
pub fn read_chosen(columns: &Columns<'_>, state: &[u8], chosen: &Chosen<'_>) -> [Value; MOST_CHOSEN]
    requires { StateImage.STATE ≤ length state.now }
    ensures { CellsRead columns.now.d.now state.now chosen.now.spots.now (length chosen.now.spots.now) result }
{
    let mut vs = [Value::Unset; MOST_CHOSEN];
    let n = columns.row(ENTITY_COUNT_ROW);
    if MOST_ENTITIES < n {
        return vs;
    }
    let cells = HEAD_BYTES + n;
    let count = chosen.spots.len();
    for k in 0..count {
        let spot = chosen.spots[count - 1 - k] as usize;
        vs[k] = read_spot(&state[HEAD_BYTES..], &state[cells..], spot);
    }
    vs
}
