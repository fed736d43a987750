// The columns of a bench, lent together: its tokens, what its names refer to, and its rules' variables.
ghost use Rattle.std.specs.Prelude.{◌≡◌, ◌<◌, ◌/◌, ◌%◌, length, get_or};
ghost use Rattle.text.specs.definitions.Syntax;
ghost use Rattle.text.specs.definitions.Grammar.{expression_reader, priority_reader, atom_reader};
ghost use Rattle.text.specs.inner_contracts.Walks.{Steps, Ends};
ghost use Rattle.cycles.specs.inner_contracts.CellTokens.{CellToken, SortTest};

use crate::planes;
use checking::{Columns, row};
use text::walks;

/// The columns of a bench with what its rules say: the value of each token that has one, what each name refers to, and which variables a rule has and
/// what it reads.
#[derive(Clone, Copy)]
pub struct Rules<'a> {
    pub columns: Columns<'a>,
    pub literals: &'a [u32],
    pub references: &'a [u16],
    pub scopes: &'a [u8],
}

impl<'a> Rules<'a> {
    /// How many tokens there are.
    pub fn len(&self) -> usize
        ensures { result ≡ length self.now.columns.classes.now }
    {
        self.columns.classes.len()
    }

    /// The class of token number i; 0 if there is none.
    pub fn class_at(&self, i: usize) -> u8
        ensures { result ≡ get_or self.now.columns.classes.now i 0 }
    {
        walks::class_at(self.columns.classes, i)
    }

    /// The value of token number i; 0 if there is none.
    pub fn value_at(&self, i: usize) -> u32
        ensures { result ≡ get_or self.now.literals.now i 0 }
    {
        walks::value_at(self.literals, i)
    }

    /// The number after i, if there is a token number i; else i.
    pub fn skip(&self, i: usize) -> usize
        ensures { Steps (length self.now.columns.classes.now) i result }
    {
        walks::skip(i, self.columns.classes.len())
    }

    /// What token number i refers to, a name that means an entity or a variable: the low 8 bits of its row.
    pub fn owner(&self, i: usize) -> u8
        ensures { result ≡ get_or self.now.references.now i 0 % 256 }
    {
        (row(self.references, i) % 256) as u8
    }

    /// The number of the member that token number i names: what its row has above the low 8 bits.
    pub fn member(&self, i: usize) -> u8
        ensures { result ≡ get_or self.now.references.now i 0 / 256 }
    {
        (row(self.references, i) / 256) as u8
    }

    /// Row number i of the scopes; 0 if there is none.
    pub fn scope(&self, i: usize) -> u8
        ensures { result ≡ get_or self.now.scopes.now i 0 }
    {
        walks::class_at(self.scopes, i)
    }

    /// Row number i of the directory; 0 if there is none.
    pub fn row(&self, i: usize) -> usize
        ensures { (result ≡ get_or self.now.columns.d.now i 0) × (result < 65536) }
    {
        row(self.columns.d, i)
    }

    /// The first token of the member whose cell has number i; NO_TOKEN where the bench has no such member.
    pub fn cell_token(&self, i: usize) -> usize
        ensures { CellToken self.now.columns.d.now i result }
    {
        planes::cell_token(self.columns.d, i)
    }

    /// Whether the member whose first token has number `at` has the sort that the class says.
    pub fn is_sort(&self, at: usize, class: u8) -> bool
        ensures { SortTest self.now.columns.classes.now at class result }
    {
        planes::is_sort(self.columns.classes, at, class)
    }

    /// The number of the token after an expression that begins at number `at`.
    pub fn expression_end(&self, at: usize) -> usize
        ensures { Ends self.now.columns.classes.now (expression_reader Syntax.OPENERS) at result }
    {
        walks::expression_end(self.columns.classes, at)
    }

    /// The number of the token after a clause, or a condition in parentheses, that begins at number `at`.
    pub fn atom_end(&self, at: usize) -> usize
        ensures { Ends self.now.columns.classes.now (atom_reader Syntax.OPENERS) at result }
    {
        walks::atom_end(self.columns.classes, at)
    }

    /// The number of the token after a priority that begins at number `at`, if there is one.
    pub fn priority_end(&self, at: usize) -> usize
        ensures { Ends self.now.columns.classes.now priority_reader at result }
    {
        walks::priority_end(self.columns.classes, at)
    }
}
