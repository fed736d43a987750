// The cells that the conditions of rules read, by a scan of their tokens.
ghost use Rattle.std.specs.Prelude.{◌<◌, ◌≤◌, ◌≡◌, length};
ghost use Rattle.checking.specs.definitions.CountFaults;
ghost use Rattle.cycles.specs.inner_contracts.Bundles.{of_members};
ghost use Rattle.cycles.specs.inner_contracts.ReadSets;
ghost use Rattle.reads.specs.inner_contracts.ReadSteps.{is_before_member, MentionAdded, RuleRead, Cleared, ReadsFound};

use crate::cells::add_reads;
use checking::layout::{MOST_RULES, RULE_COUNT_ROW, RULE_ROWS};
use checking::resolver::owner_of;
use checking::{Columns, row};
use cycles::layout::{READ_SETS_AT, SCOPES_BYTES};
use text::classes::{ACTION, DOT, EVENT, WITH};

// Whether a member's name comes after a token of this class in a condition.
#[tactic(auto, unfolding(crate::specs::inner_contracts::ReadSteps::is_before_member))]
fn is_before_member(class: u8) -> bool
    ensures { result ≡ is_before_member class }
{
    matches!(class, DOT | EVENT | WITH)
}

// Puts the cells that token number i, a member's name, mentions into the set of rule number k. A row of references has the member's number above the
// low 8 bits, which are the owner's.
#[tactic(auto, using(crate::proofs::steps::SetSteps::mention_added))]
fn add_mention(columns: &Columns<'_>, refs: &[u16], scopes: &mut [u8], k: usize, i: usize)
    requires { (k < CountFaults.MOST_RULES) × (ReadSets.SCOPES_BYTES ≤ length scopes.old) }
    ensures { of_members MentionAdded columns.now refs.now k i scopes.old scopes.new }
{
    let owner = owner_of(columns.classes, i);
    let r = row(refs, owner) % 256;
    let m = row(refs, i) / 256;
    add_reads(columns.d, scopes, k, r, m);
}

// Puts the cells that the condition of rule number k reads into its set. The condition ends before the first call, whose first token is the first
// `action` of the rule.
fn find_in_rule(columns: &Columns<'_>, refs: &[u16], scopes: &mut [u8], k: usize)
    requires { (k < CountFaults.MOST_RULES) × (ReadSets.SCOPES_BYTES ≤ length scopes.old) }
    ensures { of_members RuleRead columns.now refs.now k scopes.old scopes.new }
{
    let first = columns.row(RULE_ROWS + k) + 1;
    for i in first..columns.classes.len() {
        let class = columns.class_at(i);
        if class == ACTION {
            return;
        }
        if !is_before_member(class) {
            continue;
        }
        add_mention(columns, refs, scopes, k, i + 1);
    }
}

// Empties the sets of all rules: lent memory may hold anything.
fn clear_sets(scopes: &mut [u8])
    requires { ReadSets.SCOPES_BYTES ≤ length scopes.old }
    ensures { Cleared scopes.old scopes.new }
{
    scopes[READ_SETS_AT..SCOPES_BYTES].fill(0);
}

/// Fills the sets of all rules.
#[tactic(auto, using(crate::proofs::steps::RuleSteps::finding_starts))]
pub fn find_reads(columns: &Columns<'_>, refs: &[u16], scopes: &mut [u8])
    requires { ReadSets.SCOPES_BYTES ≤ length scopes.old }
    ensures { of_members ReadsFound columns.now refs.now scopes.old scopes.new }
{
    clear_sets(scopes);
    let count = columns.row(RULE_COUNT_ROW);
    for k in 0..MOST_RULES {
        if count <= k {
            return;
        }
        find_in_rule(columns, refs, scopes, k);
    }
}
