// The fields of a line, by where they start and end. They are read from the last to the first, as the definitions go through them.
ghost use Rattle.std.specs.Prelude.{◌≡◌, ◌≤◌, ◌==◌, length, position, IfSome};
ghost use Rattle.cycles.specs.definitions.Fields.{fields};
ghost use Rattle.cycles.specs.inner_contracts.FieldReads.{FieldStart, first_size};

/// Where the field that ends at `end` starts; fields stand between bytes `mark`.
#[tactic(auto, using(crate::proofs::laws::FieldLaws::runs_none, crate::proofs::laws::FieldLaws::starts_first))]
pub fn field_start(line: &[u8], end: usize, mark: u8) -> usize
    requires { end ≤ length line.now }
    ensures { FieldStart mark line.now end result }
{
    for i in (0..end).rev() {
        if line[i] == mark {
            return i + 1;
        }
    }
    0
}

/// Where the first byte `mark` stands, if there is one.
pub fn first_mark(line: &[u8], mark: u8) -> Option<usize>
    ensures { result ≡ position (λ b. b == mark) line.now }
{
    line.iter().position(|&b| b == mark)
}

/// The length of the first of a line's fields, none of which is empty and `count` of which follow it; none for any other line.
#[tactic(auto, using(crate::proofs::laws::FieldLaws::none_passed, crate::proofs::laws::FieldLaws::next_passed))]
pub fn first_size(line: &[u8], count: usize) -> Option<usize>
    ensures size { result ≡ first_size count (fields line.now) }
    ensures within { IfSome result (λ n. n ≤ length line.now) }
{
    let mut end = line.len();
    let mut passed: usize = 0;
    loop {
        let start = field_start(line, end, b' ');
        if start == end {
            return None;
        }
        if start == 0 {
            if passed == count {
                return Some(end);
            }
            return None;
        }
        passed += 1;
        end = start - 1;
    }
}
