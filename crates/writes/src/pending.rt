// Pending cells: memory that takes writes, and has for each cell the priority of the write that stands there.
ghost use Rattle.std.specs.Prelude.{◌+◌, ◌*◌, ◌≤◌, ◌<◌, ◌≡◌, ltb, length};
ghost use Rattle.writes.specs.inner_contracts.Pending.{pended};

use values::Value;

// Whether a write of this priority comes too late, by the stamp of its cell: 0 where nothing was written, else the priority that holds the cell, plus 1.
fn is_late(stamp: u8, priority: u8) -> bool
    ensures { result ≡ ltb priority stamp }
{
    stamp.checked_sub(1).is_some_and(|held| priority <= held)
}

/// The write of a value to cell number `i`, by a rule of this priority: made unless one of its priority or a higher one was made before. The cells
/// stand at the front of the area, their stamps from `stamps` on.
#[tactic(auto, unfolding(crate::specs::inner_contracts::Pending::pended))]
pub fn put_write(area: &mut [u8], stamps: usize, i: usize, priority: u8, v: Value)
    requires cell { i * 9 + 9 ≤ stamps }
    requires stamp { stamps + i < length area.old }
    requires few { priority < 255 }
    ensures { area.new ≡ pended stamps area.old i priority v }
{
    let at = stamps + i;
    if is_late(area[at], priority) {
        return;
    }
    values::put_cell(area, i, v);
    area[at] = priority + 1;
}
