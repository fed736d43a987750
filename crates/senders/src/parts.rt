// The senders' parts of a state image: found by a name, tested, and put.
ghost use Rattle.std.specs.List.{list_all};
ghost use Rattle.std.specs.Prelude.{◌≡◌, ◌<◌, eqb, unwrap_or, IfSome, ◌+◌, ◌-◌, ◌*◌, ◌≤◌, length, get_or, drop, replicate, ◌++◌};
ghost use Rattle.values.specs.inner_contracts.Puts.{Put};
ghost use Rattle.values.specs.definitions.Bytes.{same_bytes};
ghost use Rattle.checking.specs.definitions.CountFaults;
ghost use Rattle.cycles.specs.definitions.Planes;
ghost use Rattle.cycles.specs.inner_contracts.Bundles.{of_members, entities_of};
ghost use Rattle.senders.specs.definitions.Sender;
ghost use Rattle.senders.specs.definitions.StateImage;
ghost use Rattle.senders.specs.definitions.StateImage.{sender_size, image_size, part_name, is_padded, is_sender_head};
ghost use Rattle.senders.specs.inner_contracts.SenderMemory.{PlaceRead, PartTest, PartsTest, KeptCellPut, KeptPut, part_of};

use crate::layout::{HEAD_BYTES, MOST_NAME_BYTES, NAME_PLACE, SENDER_HEAD_BYTES};
use crate::names::is_sender;
use checking::Columns;
use checking::layout::ENTITY_COUNT_ROW;
use cycles::layout::{CELL_BYTES, ENTITY_BYTES, ENTITY_CELLS};
use cycles::planes::NO_TOKEN;
use cycles::{Plane, cell_token, is_sort, number, plane_fits, put_number, put_plane};
use text::classes::ACTION;
use values::{cell, put_bytes, put_cell, same_bytes};

/// Where the part of the sender at a place begins in the image.
pub fn part_at(n: usize, place: usize) -> usize
    requires { (n ≤ CountFaults.MOST_ENTITIES) × (place ≤ Sender.MOST_SENDERS) }
    ensures { result ≡ image_size n place }
{
    HEAD_BYTES + 2 * ENTITY_BYTES * n + place * (SENDER_HEAD_BYTES + ENTITY_BYTES * n)
}

// ---- names

/// The name in a part; none where its length is too great.
pub fn name_of(part: &[u8]) -> &[u8]
    requires { StateImage.NAME_PLACE ≤ length part.now }
    ensures { (length result.now ≤ Sender.MOST_NAME_BYTES) × (get_or part.now 0 0 ≤ Sender.MOST_NAME_BYTES → result.now ≡ part_name part.now) }
{
    let size = part[0] as usize;
    if MOST_NAME_BYTES < size {
        return &part[0..0];
    }
    let end = size + 1;
    &part[1..end]
}

// Is this the part of the sender of that name?
#[tactic(auto, using(crate::proofs::steps::PartSteps::other_length))]
fn has_name(part: &[u8], name: &[u8]) -> bool
    requires { (StateImage.SENDER_HEAD_BYTES ≤ length part.now) × (length name.now ≤ Sender.MOST_NAME_BYTES) }
    ensures { result ≡ same_bytes name.now (part_name part.now) }
{
    let size = name.len();
    if part[0] as usize != size {
        return false;
    }
    let end = size + 1;
    same_bytes(name, &part[1..end])
}

/// The place of the sender of that name among `count` parts of so many bytes.
#[tactic(auto, using(crate::proofs::steps::PartSteps::places_begin, crate::proofs::steps::PartSteps::place_found))]
pub fn place_of(parts: &[u8], size: usize, count: usize, name: &[u8]) -> Option<usize>
    requires { (StateImage.SENDER_HEAD_BYTES ≤ size) × (count * size ≤ length parts.now) × (length name.now ≤ Sender.MOST_NAME_BYTES) }
    ensures place { PlaceRead parts.now size count name.now (unwrap_or result count) }
    ensures below { IfSome result (λ i. i < count) }
{
    let mut at = 0;
    for i in 0..count {
        if has_name(&parts[at..], name) {
            return Some(i);
        }
        at += size;
    }
    None
}

// ---- tests

fn are_zeros(bytes: &[u8]) -> bool
    ensures { result ≡ list_all (λ b. eqb b 0) bytes.now }
{
    bytes.iter().all(|&b| b == 0)
}

#[tactic(auto, using(crate::proofs::steps::PartSteps::zeros_padded))]
fn is_padded(part: &[u8]) -> bool
    requires { (StateImage.NAME_PLACE ≤ length part.now) × (get_or part.now 0 0 ≤ Sender.MOST_NAME_BYTES) }
    ensures { result ≡ is_padded part.now }
{
    let end = part[0] as usize + 1;
    are_zeros(&part[end..NAME_PLACE])
}

// Has a part a name and a number of at least 1?
#[tactic(auto, using(crate::proofs::steps::PartSteps::head_read))]
fn is_sender_head(part: &[u8]) -> bool
    requires { StateImage.SENDER_HEAD_BYTES ≤ length part.now }
    ensures { result ≡ is_sender_head part.now }
{
    if MOST_NAME_BYTES < part[0] as usize {
        return false;
    }
    if !is_sender(name_of(part)) {
        return false;
    }
    if !is_padded(part) {
        return false;
    }
    number(&part[NAME_PLACE..]) != 0
}

#[tactic(auto, using(crate::proofs::steps::PartSteps::head_fails, crate::proofs::steps::PartSteps::plane_says))]
fn is_sender_part(columns: &Columns<'_>, part: &[u8]) -> bool
    requires { sender_size (entities_of columns.now) ≤ length part.now }
    ensures { of_members PartTest columns.now part.now result }
{
    if !is_sender_head(part) {
        return false;
    }
    plane_fits(
        Plane::Kept,
        columns.classes,
        columns.d,
        &part[SENDER_HEAD_BYTES..],
    )
}

/// Are these `count` parts of senders, no two of one name?
#[tactic(auto, using(crate::proofs::steps::PartSteps::parts_begin, crate::proofs::steps::PartSteps::part_fails))]
pub fn are_senders(columns: &Columns<'_>, parts: &[u8], count: usize) -> bool
    requires few_entities { entities_of columns.now ≤ CountFaults.MOST_ENTITIES }
    requires parts { (count ≤ Sender.MOST_SENDERS) × (count * sender_size (entities_of columns.now) ≤ length parts.now) }
    ensures { of_members PartsTest columns.now parts.now count result }
{
    let size = SENDER_HEAD_BYTES + ENTITY_BYTES * columns.row(ENTITY_COUNT_ROW);
    let mut at = 0;
    for i in 0..count {
        let part = &parts[at..];
        if !is_sender_part(columns, part) {
            return false;
        }
        at += size;
        if place_of(&parts[at..], size, count - i - 1, name_of(part)).is_some() {
            return false;
        }
    }
    true
}

// ---- writing

// Puts what was fired at cell number i, if the member whose first token has that number is an action.
fn put_kept_cell(classes: &[u8], token: usize, fired: &[u8], i: usize, inputs: &mut [u8])
    requires { (i * Planes.CELL_BYTES + Planes.CELL_BYTES ≤ length fired.now) × (i * Planes.CELL_BYTES + Planes.CELL_BYTES ≤ length inputs.old) }
    ensures { KeptCellPut classes.now token fired.now i inputs.old inputs.new }
{
    if is_sort(classes, token, ACTION) {
        put_cell(inputs, i, cell(fired, i));
    }
}

/// Makes of a line's inputs, of n entities, what is kept of them: of an action what was fired, of any other cell its reading, which stands there.
pub fn put_kept(columns: &Columns<'_>, n: usize, fired: &[u8], inputs: &mut [u8])
    requires { (Planes.ENTITY_CELL_BYTES * n ≤ length fired.now) × (Planes.ENTITY_CELL_BYTES * n ≤ length inputs.old) }
    ensures { of_members KeptPut columns.now inputs.old fired.now (Planes.ENTITY_CELLS * n) inputs.old
        inputs.new }
{
    for e in 0..n {
        for m in 0..ENTITY_CELLS {
            let i = ENTITY_CELLS * e + m;
            let token = cell_token(columns.d, i);
            if NO_TOKEN <= token {
                break; // the entity has no further member
            }
            put_kept_cell(columns.classes, token, fired, i, inputs);
        }
    }
}

// Puts so many bytes of 0.
#[tactic(auto, using(values::proofs::laws::PutLaws::put_filled))]
fn put_zeros(memory: &mut [u8], at: usize, count: usize)
    requires { at + count ≤ length memory.old }
    ensures { Put (replicate count 0) memory.old at memory.new (at + count) }
{
    let end = at + count;
    memory[at..end].fill(0);
}

/// Puts a sender's part of n entities at the front of memory.
pub fn put_sender(memory: &mut [u8], n: usize, name: &[u8], last: u32, flags: &[u8], cells: &[u8])
    requires sender { (length name.now ≤ Sender.MOST_NAME_BYTES) × (n ≤ length flags.now) × (Planes.ENTITY_CELL_BYTES * n ≤ length cells.now) }
    requires room { (n ≤ CountFaults.MOST_ENTITIES) × (sender_size n ≤ length memory.old) }
    ensures { memory.new
        ≡ part_of n name.now last flags.now cells.now ++ drop (sender_size n) memory.old }
{
    memory[0] = name.len() as u8;
    let end = put_bytes(memory, 1, name);
    put_zeros(memory, end, NAME_PLACE - end);
    put_number(&mut memory[NAME_PLACE..], last);
    put_plane(memory, SENDER_HEAD_BYTES, flags, cells, n);
}
