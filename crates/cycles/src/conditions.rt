// Whether a condition holds in a store and the one before it, by a walk over its tokens.
ghost use Rattle.text.specs.definitions.Grammar.{filter_reader, test_reader, clause_reader, atom_reader, conjunction_reader, condition_reader};
ghost use Rattle.cycles.specs.inner_contracts.Evaluation.{TargetWalk, Filters, Tests, Holds};

use crate::evaluate::bound;
use crate::expressions::expression;
use crate::rules::Rules;
use crate::world::{Walked, World, Worlds};
use text::classes::{AND, CHANGED, COLON, OR, ROUND_OPEN, WITH};

/// The number of the token after a target.
pub fn target_end(rules: &Rules<'_>, at: usize) -> usize
    ensures { TargetWalk rules.now.columns.classes.now at result }
{
    let colon = rules.skip(at);
    if rules.class_at(colon) != COLON {
        return colon;
    }
    rules.skip(rules.skip(colon))
}

/// After a target, which is entity e: nothing, or `with attribute = expression`.
pub fn filter(world: &World<'_, '_>, e: u8, at: usize, depth: u32) -> Walked<bool>
    ensures { Filters world.now.rules.now world.now.b world.now.store.now e
        (filter_reader depth) at result.value result.next }
{
    if world.rules.class_at(at) != WITH {
        return Walked {
            value: true,
            next: at,
        };
    }
    let name = world.rules.skip(at);
    let inside = world.rules.skip(world.rules.skip(name));
    let cell = world.store.read_cell(e, world.rules.member(name));
    let x = expression(world, inside, depth);
    Walked {
        value: values::equal(cell, x.value),
        next: x.next,
    }
}

// After `value`: what is asked of member m of entity e.
fn test(worlds: &Worlds<'_, '_>, e: u8, m: u8, at: usize, depth: u32) -> Walked<bool>
    ensures { Tests worlds.now.rules.now worlds.now.b worlds.now.stores.now.current worlds.now.stores.now.previous e m (test_reader depth) at result.value result.next }
{
    let Worlds { rules, b, stores } = *worlds;
    let inside = rules.skip(at);
    let cell = stores.current.read_cell(e, m);
    if rules.class_at(at) == CHANGED {
        return Walked {
            value: values::differ(cell, stores.previous.read_cell(e, m)),
            next: inside,
        };
    }
    let now = World {
        rules: &*rules,
        b,
        store: &stores.current,
    };
    let before = World {
        rules: &*rules,
        b,
        store: &stores.previous,
    };
    let x = expression(&now, inside, depth);
    // The store before matters only where the values are equal now.
    let holds = values::equal(cell, x.value)
        && !values::equal(
            stores.previous.read_cell(e, m),
            expression(&before, inside, depth).value,
        );
    Walked {
        value: holds,
        next: x.next,
    }
}

fn clause(worlds: &Worlds<'_, '_>, at: usize, depth: u32) -> Walked<bool>
    ensures { Holds worlds.now.rules.now worlds.now.b worlds.now.stores.now.current worlds.now.stores.now.previous (clause_reader depth) at result.value result.next }
{
    let Worlds { rules, b, stores } = *worlds;
    let name = rules.skip(at);
    let from = rules.skip(name);
    let target = rules.skip(from);
    let e = bound(b, rules.owner(target));
    let m = rules.member(name);
    let end = target_end(rules, target);
    let now = World {
        rules,
        b,
        store: &stores.current,
    };
    let f = filter(&now, e, end, depth);
    let t = test(worlds, e, m, rules.skip(f.next), depth);
    Walked {
        value: stores.current.is_present_at(e, m) && f.value && t.value,
        next: t.next,
    }
}

/// `depth` openers may still come.
#[cycle(atom_condition_conjunction)]
pub fn atom(worlds: &Worlds<'_, '_>, at: usize, depth: u32) -> Walked<bool>
    ensures { Holds worlds.now.rules.now worlds.now.b worlds.now.stores.now.current worlds.now.stores.now.previous (atom_reader depth) at result.value result.next }
{
    if depth == 0 || worlds.rules.class_at(at) != ROUND_OPEN {
        return clause(worlds, at, depth);
    }
    let x = condition(worlds, worlds.rules.skip(at), depth - 1);
    Walked {
        next: worlds.rules.skip(x.next),
        ..x
    }
}

#[cycle(atom_condition_conjunction)]
fn conjunction(worlds: &Worlds<'_, '_>, at: usize, depth: u32) -> Walked<bool>
    ensures { Holds worlds.now.rules.now worlds.now.b worlds.now.stores.now.current worlds.now.stores.now.previous (conjunction_reader depth) at result.value result.next }
{
    let mut left = atom(worlds, at, depth);
    while worlds.rules.class_at(left.next) == AND {
        let right = atom(worlds, worlds.rules.skip(left.next), depth);
        left = Walked {
            value: left.value && right.value,
            next: right.next,
        };
    }
    left
}

#[cycle(atom_condition_conjunction)]
pub fn condition(worlds: &Worlds<'_, '_>, at: usize, depth: u32) -> Walked<bool>
    ensures { Holds worlds.now.rules.now worlds.now.b worlds.now.stores.now.current worlds.now.stores.now.previous (condition_reader depth) at result.value result.next }
{
    let mut left = conjunction(worlds, at, depth);
    while worlds.rules.class_at(left.next) == OR {
        let right = conjunction(worlds, worlds.rules.skip(left.next), depth);
        left = Walked {
            value: left.value || right.value,
            next: right.next,
        };
    }
    left
}
