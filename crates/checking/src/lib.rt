// Which bench files are accepted.
#![tactic(auto)]

pub mod check; // the check of a text
pub mod coded_faults; // faults by their numbers, whatever those are
pub mod columns; // the columns and the directory, lent together
pub mod conditions; // names and kinds of conditions and calls
pub mod counts; // the counts of a file's items
pub mod directory; // where a file's items begin
pub mod entities; // the entities of a file
pub mod expressions; // names and kinds of expressions
pub mod faults; // what a walk of the check finds
pub mod interfaces; // the interfaces of a file
pub mod kinds; // kinds, and what fits
pub mod layout; // the counts, and the rows of a directory
pub mod meanings; // what the names in a rule mean
pub mod names; // entities' names by their numbers
pub mod priorities; // the priorities of rules
pub mod resolver; // what the names of rules refer to, as numbers
pub mod rules; // names and kinds of rules
pub mod table; // what the columns and the directory say

ghost use Rattle.std.specs.Prelude.{◌≡◌, ◌+◌, ◌*◌, ◌<◌};

pub use check::CheckError;
pub use coded_faults::{CodedFault, CodedPart};
pub use columns::Columns;
pub use counts::count_fault;
pub use directory::build;
pub use entities::{entity_faults, link_entities};
pub use faults::{Fault, FaultKind, Faults, earlier, unless};
pub use interfaces::interface_faults;
pub use names::{Span, entity_name, entity_span};
pub use resolver::resolve;
pub use rules::rule_faults;
pub use table::{first_of, member_kind, member_sort, name, row, same_name};

// A refusal's code and offset in one number.
pub fn coded(code: u8, offset: u32) -> u64
    ensures { result ≡ code + 256 * offset }
{
    code as u64 + 256 * (offset as u64)
}
