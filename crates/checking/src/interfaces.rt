// The interfaces of a file: the faults of their names and of their members' names.
ghost use Rattle.checking.specs.inner_contracts.DeclarationWalk.{RepeatedRows, InterfacesFound};
ghost use Rattle.checking.specs.inner_contracts.OfColumns.{of_names};

use crate::columns::Columns;
use crate::faults::{Fault, FaultKind, earlier, unless};
use crate::layout::{INTERFACE_ROWS, MEMBER_ROWS, MOST_MEMBERS};
use crate::table::row;

// The earliest of `count` items of the directory, in the rows from `base` on, that bears the name of one before it.
pub fn repeated(columns: &Columns<'_>, base: usize, count: usize) -> Option<Fault>
    ensures { of_names RepeatedRows columns.now base count result }
{
    let items = columns.rows_from(base);
    let mut found = None;
    for k in 0..count {
        let i = row(items, k) + 1;
        let before = columns.first_named(base, k, columns.name(i));
        let again = unless(
            before.is_none(),
            FaultKind::DeclaredAgain,
            columns.offset(i),
        );
        found = earlier(found, again);
    }
    found
}

// The earliest fault of the interfaces' names, and of the members' names in each of them.
#[tactic(auto, using(crate::proofs::steps::InterfaceLaws::interfaces_begin, crate::proofs::steps::InterfaceLaws::interfaces_next, crate::proofs::steps::InterfaceLaws::interfaces_end))]
pub fn interface_faults(columns: &Columns<'_>) -> Option<Fault>
    ensures { of_names InterfacesFound columns.now result }
{
    let count = columns.interfaces();
    let mut found = repeated(columns, INTERFACE_ROWS, count);
    for k in 0..count {
        let members = repeated(columns, MEMBER_ROWS + k * MOST_MEMBERS, columns.members(k));
        found = earlier(found, members);
    }
    found
}
