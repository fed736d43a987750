// The directory of a file: where its interfaces, their members, its entities and its rules begin, by scans of the classes.
ghost use Rattle.std.specs.Prelude.{◌≡◌, set};
ghost use Rattle.checking.specs.inner_contracts.TokenPlaces.{Marked, MembersMarked};
ghost use Rattle.checking.specs.inner_contracts.DirectoryItems.{DirectoryBuilt};

use crate::layout::{
    DIRECTORY, ENTITY_COUNT_ROW, ENTITY_ROWS_16, INTERFACE_COUNT_ROW, INTERFACE_ROWS,
    INTERFACE_ROWS_16, MEMBER_COUNT_ROWS, MEMBER_ROWS_16, MOST_ENTITIES_16, MOST_INTERFACES_16,
    MOST_MEMBERS_16, MOST_RULES_16, RULE_COUNT_ROW, RULE_ROWS_16,
};
use crate::table::{first_of, row};
use text::classes::{ACTION, ATTRIBUTE, BRACE_CLOSE, ENTITY, INTERFACE, WHEN};
use text::walks::class_at;

// Puts a number into a row, if there is that row.
fn put(d: &mut [u16], at: usize, n: u16)
    ensures { d.new ≡ set d.old at n }
{
    if d.len() <= at {
        return;
    }
    d[at] = n;
}

// Puts the numbers of the tokens of classes low to high, of those from number `from` up to `end`, into the rows from `base` on, at most
// so many of them. Answers how many there are.
#[tactic(auto, using(crate::proofs::steps::PlaceLaws::marking_ends))]
fn mark(
    classes: &[u8],
    low: u8,
    high: u8,
    from: u16,
    end: u16,
    d: &mut [u16],
    base: u16,
    most: u16,
) -> u16
    ensures { Marked classes.now low high from end base most d.old d.new result }
{
    let first = base as usize;
    let mut n: u16 = 0;
    let mut i = from;
    while i < end {
        let class = class_at(classes, i as usize);
        let here = i;
        i += 1;
        if class < low {
            continue;
        }
        if high < class {
            continue;
        }
        if most <= n {
            n += 1;
            continue;
        }
        put(d, first + n as usize, here);
        n += 1;
    }
    n
}

// Marks the members of so many interfaces, of the most that a file may have.
#[tactic(auto, using(crate::proofs::steps::PlaceLaws::membering_starts, crate::proofs::steps::PlaceLaws::membering_ends, crate::proofs::steps::PlaceLaws::membering_breaks))]
fn mark_members(classes: &[u8], interfaces: u16, d: &mut [u16])
    ensures { MembersMarked classes.now interfaces d.old d.new }
{
    let mut k: u16 = 0;
    while k < MOST_INTERFACES_16 {
        if interfaces <= k {
            return;
        }
        let from = row(d, INTERFACE_ROWS + k as usize);
        let close = first_of(classes, BRACE_CLOSE, from);
        // only where there are more tokens than `build` lets pass
        if close > 65535 {
            return;
        }
        let count = mark(
            classes,
            ATTRIBUTE,
            ACTION,
            from as u16,
            close as u16,
            d,
            MEMBER_ROWS_16 + k * MOST_MEMBERS_16,
            MOST_MEMBERS_16,
        );
        put(d, MEMBER_COUNT_ROWS + k as usize, count);
        k += 1;
    }
}

// Fills a directory but for the entities' interfaces.
pub fn build(classes: &[u8], d: &mut [u16]) -> bool
    ensures { DirectoryBuilt classes.now d.old d.new result }
{
    if d.len() < DIRECTORY {
        return false;
    }
    if classes.len() > 65535 {
        return false;
    }
    let end = classes.len() as u16;
    let interfaces = mark(
        classes,
        INTERFACE,
        INTERFACE,
        0,
        end,
        d,
        INTERFACE_ROWS_16,
        MOST_INTERFACES_16,
    );
    put(d, INTERFACE_COUNT_ROW, interfaces);
    let entities = mark(
        classes,
        ENTITY,
        ENTITY,
        0,
        end,
        d,
        ENTITY_ROWS_16,
        MOST_ENTITIES_16,
    );
    put(d, ENTITY_COUNT_ROW, entities);
    let rules = mark(classes, WHEN, WHEN, 0, end, d, RULE_ROWS_16, MOST_RULES_16);
    put(d, RULE_COUNT_ROW, rules);
    mark_members(classes, interfaces, d);
    true
}
