// The walks over a token table: rows, steps, and where a reading ends.
ghost use Rattle.std.specs.Prelude.{ℕ, ◌≤◌, ◌≡◌, get_or};
ghost use Rattle.text.specs.definitions.Readers.{halt};
ghost use Rattle.text.specs.definitions.Syntax;
ghost use Rattle.text.specs.definitions.Grammar.{simple_or, expression_reader, priority_reader, atom_reader};
ghost use Rattle.text.specs.inner_contracts.Walks.{Steps, Ends};

use crate::classes::{NAME, PLUS, RANK, REAL};
use crate::grammar::{OPENERS, atom, expression};

/// The number after i, if there is a token number i of so many; else i, so that no walk leaves the table far.
pub fn skip(i: usize, size: usize) -> usize
    ensures { Steps size i result }
{
    if i < size {
        return i + 1;
    }
    i
}

/// A row of the classes, or of the lengths; 0 if there is none.
pub fn class_at(classes: &[u8], i: usize) -> u8
    ensures { result ≡ get_or classes.now i 0 }
{
    classes.get(i).copied().unwrap_or(0)
}

/// A row of the numbers' values; 0 if there is none.
pub fn value_at(values: &[u32], i: usize) -> u32
    ensures { result ≡ get_or values.now i 0 }
{
    values.get(i).copied().unwrap_or(0)
}

// The number of the token after what begins with no opener: name `.` member, or a literal, which is one token.
fn leaf_end(classes: &[u8], at: usize) -> usize
    ensures { Ends classes.now (simple_or halt) at result }
{
    let size = classes.len();
    let next = skip(at, size);
    if class_at(classes, at) == NAME {
        return skip(skip(next, size), size);
    }
    next
}

// The end of any expression, by the parser.
fn parsed_end(classes: &[u8], at: usize) -> usize
    ensures { Ends classes.now (expression_reader Syntax.OPENERS) at result }
{
    expression(classes, at, OPENERS).unwrap_or(at)
}

/// The number of the token after the expression at number `at`. Most expressions are one leaf: no opener has a class below that of `real`, and no
/// operator one below that of `+`.
pub fn expression_end(classes: &[u8], at: usize) -> usize
    ensures { Ends classes.now (expression_reader Syntax.OPENERS) at result }
{
    if REAL <= class_at(classes, at) {
        return parsed_end(classes, at);
    }
    let next = leaf_end(classes, at);
    if PLUS <= class_at(classes, next) {
        return parsed_end(classes, at);
    }
    next
}

/// The number of the token after the priority that may stand at number `at`.
pub fn priority_end(classes: &[u8], at: usize) -> usize
    ensures { Ends classes.now priority_reader at result }
{
    if class_at(classes, at) != RANK {
        return at;
    }
    let size = classes.len();
    skip(skip(at, size), size)
}

/// The number of the token after the clause, or the condition in parentheses, at number `at`.
pub fn atom_end(classes: &[u8], at: usize) -> usize
    ensures { Ends classes.now (atom_reader Syntax.OPENERS) at result }
{
    atom(classes, at, OPENERS).unwrap_or(at)
}
