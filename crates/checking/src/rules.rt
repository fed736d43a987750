// Names and kinds of a rule.
ghost use Rattle.checking.specs.inner_contracts.RuleWalk.{RuleFaults};
ghost use Rattle.checking.specs.inner_contracts.OfColumns.{of_file};

use crate::columns::Columns;
use crate::conditions::{call, condition, further_calls, joined};
use crate::faults::{Faults, earlier};
use crate::meanings::repeated;
use text::grammar::OPENERS;
use text::walks::{priority_end, skip};

// The faults of the rule whose `when` is token number `at`.
pub fn rule_faults(columns: &Columns<'_>, at: usize) -> Faults
    ensures { of_file RuleFaults columns.now at result }
{
    let size = columns.classes.len();
    let again = repeated(columns, at);
    let c = condition(
        columns,
        at,
        priority_end(columns.classes, skip(at, size)),
        OPENERS,
    );
    let first = call(columns, at, skip(c.next, size));
    let others = further_calls(columns, at, first.next);
    let all = joined(c, joined(first, others)).faults;
    Faults {
        names: earlier(again, all.names),
        kinds: all.kinds,
    }
}
