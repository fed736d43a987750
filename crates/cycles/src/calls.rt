// The writes of a rule at one binding: of each of its calls, if its condition holds.
ghost use Rattle.std.specs.Prelude.{◌≤◌, length};
ghost use Rattle.text.specs.definitions.Tokens;
ghost use Rattle.text.specs.definitions.Readers.{many};
ghost use Rattle.text.specs.definitions.Grammar.{call_reader, call_after};
ghost use Rattle.cycles.specs.inner_contracts.Evaluation;
ghost use Rattle.cycles.specs.inner_contracts.Evaluation.{PriorityRead, CallPuts, CallsPut, Writes};
ghost use Rattle.checking.specs.definitions.PriorityFaults;

use crate::conditions::{condition, filter, target_end};
use crate::evaluate::{bound, put};
use crate::expressions::expression;
use crate::rules::Rules;
use crate::world::{World, Worlds};
use checking::layout::MOST_PRIORITY;
use text::classes::{COMMA, RANK};
use text::grammar::OPENERS;

// One call, in a rule of this priority: what it writes goes into the area. The number of the token after it.
fn call(world: &World<'_, '_>, priority: u8, at: usize, area: &mut [u8]) -> usize
    requires in_bounds { Evaluation.MOST_PENDING_BYTES ≤ length area.old }
    requires priority_bound { priority ≤ PriorityFaults.MOST_PRIORITY }
    ensures { CallPuts world.now.rules.now world.now.b world.now.store.now priority
        area.old call_reader at area.new result }
{
    let name = world.rules.skip(at);
    let opener = world.rules.skip(name);
    let x = expression(world, world.rules.skip(opener), OPENERS);
    let on = world.rules.skip(x.next);
    let target = world.rules.skip(on);
    let e = bound(world.b, world.rules.owner(target));
    let m = world.rules.member(name);
    let f = filter(world, e, target_end(world.rules, target), OPENERS);
    let made = world.store.is_present_at(e, m) && f.value && values::is_set(x.value);
    put(area, made, priority, e, m, x.value);
    f.next
}

// Further calls, each after a `,`.
fn further_calls(world: &World<'_, '_>, priority: u8, at: usize, area: &mut [u8]) -> usize
    requires in_bounds { Evaluation.MOST_PENDING_BYTES ≤ length area.old }
    requires priority_bound { priority ≤ PriorityFaults.MOST_PRIORITY }
    ensures { CallsPut world.now.rules.now world.now.b world.now.store.now priority
        area.old (many Tokens.COMMA call_after) at area.new result }
{
    let mut i = at;
    while world.rules.class_at(i) == COMMA {
        i = call(world, priority, world.rules.skip(i), area);
    }
    i
}

// The priority of the rule whose tokens after `when` begin at number `at`: 0 if it says none, and if it is above the greatest, as in no checked file.
#[tactic(auto, using(crate::proofs::steps::CallWrites::priority_above))]
fn priority_at(rules: &Rules<'_>, at: usize) -> u8
    ensures { PriorityRead rules.now.columns.classes.now rules.now.literals.now at result }
{
    if rules.class_at(at) != RANK {
        return 0;
    }
    let n = rules.value_at(rules.skip(at));
    if MOST_PRIORITY < n {
        return 0;
    }
    n as u8
}

/// The rule whose tokens after `when` begin at number `at`.
pub fn rule_at(worlds: &Worlds<'_, '_>, at: usize, area: &mut [u8])
    requires { Evaluation.MOST_PENDING_BYTES ≤ length area.old }
    ensures { Writes worlds.now.rules.now worlds.now.b worlds.now.stores.now.current worlds.now.stores.now.previous at area.old area.new }
{
    let Worlds { rules, b, stores } = *worlds;
    let c = condition(worlds, rules.priority_end(at), OPENERS);
    if !c.value {
        return;
    }
    let world = World {
        rules,
        b,
        store: &stores.current,
    };
    let priority = priority_at(rules, at);
    let next = call(&world, priority, rules.skip(c.next), area);
    further_calls(&world, priority, next, area);
}
