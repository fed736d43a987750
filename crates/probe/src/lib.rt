// Which rules a line tries, by the states before it and after it: separate readings of document 02 are compared with this. It is no call of the
// engine.
#![tactic(auto)]

ghost use Rattle.std.specs.Prelude.{◌≡◌, ◌≤◌, length};
ghost use Rattle.senders.specs.definitions.StateImage;
ghost use Rattle.engine.specs.inner_contracts.Refusals.{answer_of};
ghost use Rattle.probe.specs.definitions.Tried;
ghost use Rattle.probe.specs.definitions.Tried.{TriedContract};
ghost use Rattle.probe.specs.inner_contracts.TriedMemory.{TriedBetween, tried_in_text};

use checking::layout::{ENTITY_COUNT_ROW, MOST_BYTES, MOST_ENTITIES};
use cycles::layout::{ENTITY_BYTES, NUMBER_BYTES};
use cycles::quiescence::tried_rules;
use cycles::{Rules, Store, Stores};
use engine::bench::text_of;
use engine::refusal::{Refusal, answer, room_for};
use engine::room::{AcceptedBench, Room};
use senders::layout::{HEAD_BYTES, STATE};
use values::put_word;

// The stated size of a bench, as the engine has it.
const BENCH: usize = NUMBER_BYTES + MOST_BYTES;

// A bit for each rule that a bench may have.
const SET_BYTES: usize = 8;

// The set of the rules that are tried: each image keeps what the rules saw as its previous store, behind the present one.
fn tried_between(rules: &Rules<'_>, before: &[u8], after: &[u8]) -> u64
    requires { (StateImage.STATE ≤ length before.now) × (StateImage.STATE ≤ length after.now) }
    ensures { TriedBetween rules.now.columns.d.now rules.now.scopes.now before.now after.now result }
{
    let n = rules.row(ENTITY_COUNT_ROW);
    // only where no bench stands in the columns
    if MOST_ENTITIES < n {
        return 0;
    }
    let flags = HEAD_BYTES + ENTITY_BYTES * n;
    let cells = flags + n;
    let stores = Stores {
        current: Store {
            flags: &after[flags..],
            cells: &after[cells..],
        },
        previous: Store {
            flags: &before[flags..],
            cells: &before[cells..],
        },
    };
    tried_rules(rules, &stores)
}

// Puts the set of a bench, or refuses memory that is no state of it.
#[tactic(auto, using(crate::proofs::steps::TriedSteps::not_both))]
fn put_tried(
    bench: AcceptedBench<'_>,
    before: &[u8],
    after: &[u8],
    tried: &mut [u8],
) -> Result<usize, Refusal>
    requires { (StateImage.STATE ≤ length before.now) × (StateImage.STATE ≤ length after.now) × (Tried.SET_BYTES ≤ length tried.old) }
    ensures { record { answer = answer_of result; tried = tried.new } ≡ tried_in_text bench.entry before.now after.now tried.old }
{
    bench.check_states(before, after)?;
    let bench = bench.resolve();
    let set = tried_between(bench.rules(), before, after);
    put_word(tried, 0, set);
    Ok(0)
}

// The set for a text.
#[tactic(auto, using(crate::proofs::steps::TriedSteps::text_refused))]
fn put_for_text(
    text: &[u8],
    before: &[u8],
    after: &[u8],
    tried: &mut [u8],
) -> Result<usize, Refusal>
    requires { (StateImage.STATE ≤ length before.now) × (StateImage.STATE ≤ length after.now) × (Tried.SET_BYTES ≤ length tried.old) }
    ensures { record { answer = answer_of result; tried = tried.new } ≡ tried_in_text text.now before.now after.now tried.old }
{
    let mut room = Room::<MOST_BYTES>::new();
    match room.read(text) {
        Ok(bench) => put_tried(bench, before, after, tried),
        Err(_) => Err(Refusal::NoBench),
    }
}

// The set for lent memory of any length.
#[tactic(auto, using(crate::proofs::steps::TriedSteps::short_bench, crate::proofs::steps::TriedSteps::short_before, crate::proofs::steps::TriedSteps::short_after, crate::proofs::steps::TriedSteps::short_set))]
fn put_set(bench: &[u8], before: &[u8], after: &[u8], tried: &mut [u8]) -> Result<usize, Refusal>
    ensures { TriedContract bench.now before.now after.now tried.old tried.new (answer_of result) }
{
    room_for(bench, BENCH)?;
    room_for(before, STATE)?;
    room_for(after, STATE)?;
    room_for(tried, SET_BYTES)?;
    put_for_text(text_of(bench), before, after, tried)
}

// Writes the set of the rules, a bit for each by its number, that are tried where the rules see now what the state `after` keeps as its previous
// store, and saw before what the state `before` keeps so: 31, 32, 33, or 0.
#[unsafe(no_mangle)]
pub extern "C" fn rules_tried(bench: &[u8], before: &[u8], after: &[u8], tried: &mut [u8]) -> u64
    ensures { TriedContract bench.now before.now after.now tried.old tried.new result }
{
    answer(put_set(bench, before, after, tried))
}
