// What the names of rules refer to, as numbers, once for all lines.
ghost use Rattle.std.specs.Prelude.{◌≡◌, ◌+◌, ◌*◌, ◌≤◌, leb, length, set};
ghost use Rattle.checking.specs.inner_contracts.Resolving.{VariableReference, Referred, OwnerOf, MemberOf, RowResolved, NamesResolved};
ghost use Rattle.checking.specs.inner_contracts.Resolving.{DeclarationNumber, present, InterfaceAt, VariablesHeld, ScopesResolved};
ghost use Rattle.checking.specs.inner_contracts.Resolution;
ghost use Rattle.checking.specs.inner_contracts.Resolution.{scope_row, Resolves};
ghost use Rattle.checking.specs.inner_contracts.OfColumns.{of_file, of_tokens};

use crate::columns::Columns;
use crate::layout::{
    FIRST_VARIABLE_16, MOST_MEMBERS_16, MOST_RULES_8, NO_INTERFACE, NO_MEMBER, RULE_COUNT_ROW,
    RULE_ROWS, SCOPE_ROWS,
};
use crate::meanings::{declares, meaning_of};
use crate::table::first_of;
use text::classes::{ACTION, COLON, DOT, END, EVENT, NAME, ON, WHEN, WITH};
use text::walks::{class_at, skip};

// The class of the token that ends a rule, and so its declarations.
const LAST: u8 = END;

// The number of no reference.
const NO_REFERENCE: u16 = 255;

// A row's part for a name that is no member.
const NO_MEMBER_PART: u16 = MOST_MEMBERS_16 * 256;

// How many variables a rule has, three at most, and the numbers of their interfaces.
#[derive(Clone, Copy)]
pub struct Variables {
    pub count: u8,
    pub first: u8,
    pub second: u8,
    pub third: u8,
}

// The variable that token number i names in the rule that begins at `start`, by its reference; NO_REFERENCE if there is none, or for the 224th and later ones.
#[tactic(auto, using(crate::proofs::steps::ReferenceLaws::referring_turns))]
fn variable_reference(columns: &Columns<'_>, start: usize, i: usize) -> u16
    ensures { of_tokens VariableReference columns.now start i result }
{
    let classes = columns.classes;
    let size = classes.len();
    let mut k = FIRST_VARIABLE_16;
    for n in start..size {
        if NO_REFERENCE <= k {
            return NO_REFERENCE;
        }
        let class = class_at(classes, n + 1);
        if class == LAST {
            return NO_REFERENCE;
        }
        if declares(columns, class, n, i) {
            return k;
        }
        if class == COLON {
            k += 1;
        }
    }
    NO_REFERENCE
}

// What token number i refers to in the rule that begins at `start`: an entity comes before a variable of its name.
fn reference(columns: &Columns<'_>, start: usize, i: usize) -> u16
    ensures { of_file Referred columns.now start i result }
{
    match columns.entity(columns.name(i)) {
        Some(e) => e as u16,
        None => variable_reference(columns, start, i),
    }
}

// The token that names what token number i is a member of, if the tokens around it say that it is one; else the count of tokens.
#[tactic(auto, using(crate::proofs::steps::ReferenceLaws::owners))]
pub fn owner_of(classes: &[u8], i: usize) -> usize
    ensures { OwnerOf classes.now i result }
{
    let size = classes.len();
    if i < 2 {
        return size;
    }
    let before = class_at(classes, i - 1);
    if before == DOT {
        return i - 2;
    }
    if before == EVENT {
        return skip(skip(i, size), size);
    }
    if before == ACTION {
        return skip(first_of(classes, ON, i), size);
    }
    if before != WITH {
        return size;
    }
    if i < 4 {
        return size;
    }
    if class_at(classes, i - 3) == COLON {
        return i - 4;
    }
    i - 2
}

// The member that token number i names of what token number `owner` means in the rule that begins at `start`; NO_MEMBER if there is none.
fn member_of(columns: &Columns<'_>, start: usize, owner: usize, i: usize) -> u16
    ensures { of_file MemberOf columns.now start owner i result }
{
    let face = meaning_of(columns, start, owner).unwrap_or(NO_INTERFACE);
    let member = columns.member(face, columns.name(i));
    member.unwrap_or(NO_MEMBER) as u16
}

// Row i of the column of references, in the rule that begins at `start`.
#[tactic(auto, using(crate::proofs::steps::ReferenceLaws::row_alone, crate::proofs::steps::ReferenceLaws::row_with_member))]
fn row_resolved(columns: &Columns<'_>, start: usize, i: usize) -> u16
    ensures { of_file RowResolved columns.now start i result }
{
    let low = reference(columns, start, i);
    let owner = owner_of(columns.classes, i);
    if columns.classes.len() <= owner {
        return NO_MEMBER_PART + low;
    }
    member_of(columns, start, owner, i) * 256 + low
}

// Fills the rows of all names from the first rule on; those before it are of no use.
#[tactic(auto, using(crate::proofs::steps::ResolvedNames::naming_first))]
pub fn resolve_names(columns: &Columns<'_>, refs: &mut [u16])
    requires { length columns.now.classes.now ≤ length refs.old }
    ensures { of_file NamesResolved columns.now refs.old
        refs.new }
{
    let mut start = 0;
    for i in first_of(columns.classes, WHEN, 0)..columns.classes.len() {
        let class = columns.class_at(i);
        if class == WHEN {
            start = i;
            continue;
        }
        if class != NAME {
            continue;
        }
        refs[i] = row_resolved(columns, start, i);
    }
}

// The token that declares variable number v of the rule that begins at `start`; the count of tokens if none does.
#[tactic(auto, using(crate::proofs::steps::ScopeLaws::counting_turns))]
fn declaration_number(classes: &[u8], start: usize, v: u8) -> usize
    ensures { DeclarationNumber classes.now start v result }
{
    let size = classes.len();
    let mut left = v;
    for n in start..size {
        let class = class_at(classes, n + 1);
        if class == LAST {
            return size;
        }
        if class != COLON {
            continue;
        }
        if left == 0 {
            return n;
        }
        left -= 1;
    }
    size
}

// The interface of the variable that token number n declares.
fn interface_at(columns: &Columns<'_>, n: usize) -> u8
    ensures { of_file InterfaceAt columns.now n result }
{
    let size = columns.classes.len();
    let colon = skip(n, size);
    let interface = columns.interface(columns.name(skip(colon, size)));
    interface.unwrap_or(NO_INTERFACE) as u8
}

// How many of three declarations there are, of tokens that many.
#[tactic(auto, unfolding(crate::specs::inner_contracts::Resolving::present))]
fn present(a: usize, b: usize, c: usize, size: usize) -> u8
    ensures { result ≡ present (leb size a) (leb size b) (leb size c) }
{
    if size <= a {
        return 0;
    }
    if size <= b {
        return 1;
    }
    if size <= c {
        return 2;
    }
    3
}

// The variables of the rule that begins at `start`.
#[tactic(auto, using(crate::proofs::steps::ScopeLaws::variables_held))]
fn variables_of(columns: &Columns<'_>, start: usize) -> Variables
    ensures { of_file VariablesHeld columns.now start result }
{
    let a = declaration_number(columns.classes, start, 0);
    let b = declaration_number(columns.classes, start, 1);
    let c = declaration_number(columns.classes, start, 2);
    Variables {
        count: present(a, b, c, columns.classes.len()),
        first: interface_at(columns, a),
        second: interface_at(columns, b),
        third: interface_at(columns, c),
    }
}

fn put(scopes: &mut [u8], at: usize, n: u8)
    ensures { scopes.new ≡ set scopes.old at n }
{
    if scopes.len() <= at {
        return;
    }
    scopes[at] = n;
}

// Puts a rule's variables into its four rows.
fn put_variables(scopes: &mut [u8], k: u8, v: Variables)
    ensures { scopes.new ≡ set (set (set (set scopes.old (scope_row k) v.count) (scope_row k + 1) v.first) (scope_row k + 2) v.second)
        (scope_row k + 3) v.third }
{
    let at = SCOPE_ROWS * (k as usize);
    put(scopes, at, v.count);
    put(scopes, at + 1, v.first);
    put(scopes, at + 2, v.second);
    put(scopes, at + 3, v.third);
}

// Fills the rows of all rules.
#[tactic(auto, using(crate::proofs::steps::ScopeLaws::scoping_none))]
pub fn resolve_scopes(columns: &Columns<'_>, scopes: &mut [u8])
    requires { Resolution.ALL_SCOPE_ROWS ≤ length scopes.old }
    ensures { of_file ScopesResolved columns.now
        scopes.old scopes.new }
{
    let count = columns.row(RULE_COUNT_ROW);
    for k in 0..MOST_RULES_8 {
        let rule = k as usize;
        if count <= rule {
            return;
        }
        let start = columns.row(RULE_ROWS + rule);
        let v = variables_of(columns, start);
        put_variables(scopes, k, v);
    }
}

// Resolves the names of all rules, and what variables each rule has.
#[tactic(auto, using(crate::proofs::steps::ResolutionLaws::resolves))]
pub fn resolve(columns: &Columns<'_>, refs: &mut [u16], scopes: &mut [u8])
    requires { (length columns.now.classes.now ≤ length refs.old) × (Resolution.ALL_SCOPE_ROWS ≤ length scopes.old) }
    ensures { of_file Resolves columns.now refs.old
        scopes.old refs.new scopes.new }
{
    resolve_names(columns, refs);
    resolve_scopes(columns, scopes);
}
