// The guards of a rule, tried for all candidates of the next variable.
ghost use Rattle.std.specs.Prelude.{◌+◌, ◌≤◌, ◌≡◌, false, length};
ghost use Rattle.cycles.specs.inner_contracts.GuardKinds.{Narrows};
ghost use Rattle.cycles.specs.inner_contracts.Failing.{MarksTaken, FailsWith, ComparisonFails, Fails};

use crate::conditions::atom;
use crate::evaluate::{Binding, bound, with_entity};
use crate::expressions::expression;
use crate::layout::MOST_GUARDS;
use crate::world::{World, Worlds};
use arrayvec::ArrayVec;
use text::grammar::OPENERS;

/// What a guard asks for.
#[derive(Clone, Copy, Default)]
pub enum GuardKind {
    /// The cell is equal to the expression now.
    #[default]
    EqualNow,
    /// It was not equal to it before.
    UnequalBefore,
    /// The cell changes.
    Changes,
    /// The condition in parentheses holds.
    Holds,
}

/// What must hold at a binding for a rule to write anything.
#[derive(Clone, Copy, Default)]
pub struct Guard {
    pub kind: GuardKind,
    /// It is known once so many of the rule's variables have their entities: 1, 2 or 3.
    pub level: u8,
    /// Its expression is known once so many have.
    pub inner: u8,
    /// The token that names the cell's entity.
    pub name: usize,
    /// The token that names the cell's member.
    pub member: usize,
    /// The token at which its expression or condition begins.
    pub at: usize,
}

/// The guards of a rule. Of further ones a rule has no use.
pub type Guards = ArrayVec<Guard, MOST_GUARDS>;

/// The entities tried for variable number `level`: from number `first` on, below `end`.
#[derive(Clone, Copy)]
pub struct Candidates {
    pub level: u8,
    pub first: u8,
    pub end: u8,
}

// Takes the marks of those candidates with which the test fails.
fn keep<F: Fn(Binding) -> bool>(marks: &mut [u8], b: Binding, candidates: Candidates, holds: F)
    requires room { candidates.end ≤ length marks.old }
    requires callable { F.IsAlwaysCallable holds }
    ensures { MarksTaken (FailsWith b candidates.level (λ with. F.post holds with false)) marks.old marks.new }
{
    for e in candidates.first..candidates.end {
        if marks[e as usize] != 0 && !holds(with_entity(b, candidates.level, e)) {
            marks[e as usize] = 0;
        }
    }
}

// Takes the marks of those candidates with which the guard's cell and its expression are not equal in one store, or are, as `equal` says.
fn keep_by_value(
    world: &World<'_, '_>,
    candidates: Candidates,
    guard: &Guard,
    equal: bool,
    marks: &mut [u8],
)
    requires { candidates.end ≤ length marks.old }
    ensures { MarksTaken
        (ComparisonFails world.now.rules.now world.now.b candidates.level world.now.store.now guard.now equal)
        marks.old marks.new }
{
    let World { rules, b, store } = *world;
    let owner = rules.owner(guard.name);
    let member = rules.member(guard.member);
    let at = guard.at;
    if candidates.level < guard.inner {
        // the expression has another value with each entity
        keep(marks, b, candidates, |b| {
            let x = expression(&World { rules, b, store }, at, OPENERS);
            values::equal(store.read_cell(bound(b, owner), member), x.value) == equal
        });
        return;
    }
    let x = expression(world, at, OPENERS);
    keep(marks, b, candidates, |b| {
        values::equal(store.read_cell(bound(b, owner), member), x.value) == equal
    });
}

// Takes the marks of those candidates with which a guard fails.
fn narrow_by(worlds: &Worlds<'_, '_>, candidates: Candidates, guard: &Guard, marks: &mut [u8])
    requires { candidates.end ≤ length marks.old }
    ensures { MarksTaken
        (Fails worlds.now.rules.now worlds.now.b candidates.level worlds.now.stores.now.current worlds.now.stores.now.previous guard.now)
        marks.old marks.new }
{
    let Worlds { rules, b, stores } = *worlds;
    match guard.kind {
        GuardKind::EqualNow => {
            let now = World {
                rules,
                b,
                store: &stores.current,
            };
            keep_by_value(&now, candidates, guard, true, marks);
        }
        GuardKind::UnequalBefore => {
            let before = World {
                rules,
                b,
                store: &stores.previous,
            };
            keep_by_value(&before, candidates, guard, false, marks);
        }
        GuardKind::Changes => {
            let owner = rules.owner(guard.name);
            let member = rules.member(guard.member);
            keep(marks, b, candidates, |b| {
                let e = bound(b, owner);
                values::differ(
                    stores.current.read_cell(e, member),
                    stores.previous.read_cell(e, member),
                )
            });
        }
        GuardKind::Holds => {
            let at = guard.at;
            keep(marks, b, candidates, |b| {
                atom(&Worlds { rules, b, stores }, at, OPENERS).value
            });
        }
    }
}

/// Takes the marks of those candidates with which a guard of the next level fails. Any byte but 0 is a mark.
pub fn narrow(worlds: &Worlds<'_, '_>, guards: &[Guard], candidates: Candidates, marks: &mut [u8])
    requires { candidates.end ≤ length marks.old }
    ensures { Narrows worlds.now.rules.now worlds.now.stores.now.current worlds.now.stores.now.previous worlds.now.b guards.now candidates.level candidates.first candidates.end marks.old
        marks.new }
{
    for guard in guards {
        if guard.level as usize == candidates.level as usize + 1 {
            narrow_by(worlds, candidates, guard, marks);
        }
    }
}
