// The cells that the conditions of rules read.
#![tactic(auto)]

pub mod cells; // the set of one rule
pub mod conditions; // what conditions read

ghost use Rattle.std.specs.Prelude.{◌≤◌, length};
ghost use Rattle.checking.specs.inner_contracts.OfColumns.{of_file};
ghost use Rattle.cycles.specs.inner_contracts.ReadSets;
ghost use Rattle.reads.specs.inner_contracts.RulesResolved.{RulesResolved};

use checking::Columns;
use conditions::find_reads;

/// Resolves the names of all rules: what each refers to, what variables each rule has, and what cells its condition reads.
pub fn resolve(columns: &Columns<'_>, refs: &mut [u16], scopes: &mut [u8])
    requires { (length columns.now.classes.now ≤ length refs.old) × (ReadSets.SCOPES_BYTES ≤ length scopes.old) }
    ensures { of_file RulesResolved columns.now refs.old scopes.old refs.new scopes.new }
{
    checking::resolve(columns, refs, scopes);
    find_reads(columns, refs, scopes);
}
