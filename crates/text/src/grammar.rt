// The grammar of a bench file: which columns of token classes are one, by recursive descent. Each function reads on from the token at an
// index, and answers the index of the token after what it read.
ghost use Rattle.std.specs.Prelude.{◌≡◌, ◌≤◌, ℕ, Bool, Ok, slice_get};
ghost use Rattle.text.specs.definitions.Tokens;
ghost use Rattle.text.specs.definitions.Tokens.{Token};
ghost use Rattle.text.specs.definitions.Syntax.{Sort};
ghost use Rattle.text.specs.definitions.Readers.{give, expect, many};
ghost use Rattle.text.specs.definitions.Grammar.{kind_reader, member_after, action_after, interface_after, number_reader, literal_reader};
ghost use Rattle.text.specs.definitions.Grammar.{assignment_after, entity_after, member_reader, factor_reader, opener_reader, term_reader};
ghost use Rattle.text.specs.definitions.Grammar.{expression_reader, target_reader, filter_reader, test_reader, clause_reader, atom_reader};
ghost use Rattle.text.specs.definitions.Grammar.{conjunction_reader, condition_reader, call_reader, call_after, priority_reader};
ghost use Rattle.text.specs.definitions.Grammar.{rule_after, file_reader};
ghost use Rattle.text.specs.inner_contracts.ParseAnswers.{ReadsFrom, ParsesAs, Passes, is_class, is_either, is_unsigned, Repeats};

use crate::classes::{
    ACTION, AND, ATTRIBUTE, BOOL, BRACE_CLOSE, BRACE_OPEN, CHANGED, COLON, COMMA, DIVIDE, DOT, END,
    ENTITY, EQUALS, EVENT, FALSE, FROM, INTERFACE, MINUS, NAME, ON, OR, PLUS, RANK, REAL,
    REAL_NUMBER, ROUND_CLOSE, ROUND_OPEN, RULES, TIMES, TRIGGER, TRUE, VALUE, WHEN, WHOLE,
    WHOLE_NUMBER, WITH,
};

// How many openers may enclose one another.
pub const OPENERS: u32 = 16;

/// No grammatical file has the token at this index after those before it (their count, if they end early).
#[derive(Clone, Copy, Debug, PartialEq, Eq)]
pub struct Unfit {
    pub at: usize,
}

// The next token's class, if one comes.
fn next(classes: &[u8], from: usize) -> Option<u8>
    ensures { result ≡ slice_get classes.now from }
{
    classes.get(from).copied()
}

fn next_is(classes: &[u8], from: usize, class: u8) -> bool
    ensures { Passes classes.now from (is_class class) result }
{
    next(classes, from) == Some(class)
}

fn next_is_either(classes: &[u8], from: usize, class: u8, other: u8) -> bool
    ensures { Passes classes.now from (is_either class other) result }
{
    next_is(classes, from, class) || next_is(classes, from, other)
}

// A literal without sign is one token.
fn next_is_unsigned(classes: &[u8], from: usize) -> bool
    ensures { Passes classes.now from is_unsigned result }
{
    next_is_either(classes, from, TRUE, FALSE)
        || next_is_either(classes, from, WHOLE_NUMBER, REAL_NUMBER)
}

#[tactic(auto, using(crate::proofs::laws::CodeReaderLaws::passes_below))]
fn token(classes: &[u8], from: usize, class: u8) -> Result<usize, Unfit>
    ensures { ReadsFrom classes.now (expect class give) from result }
{
    if next_is(classes, from, class) {
        return Ok(from + 1);
    }
    Err(Unfit { at: from })
}

// Items that each begin with a token of class `first`, of which `item` reads what comes after that token.
#[tactic(auto, using(crate::proofs::laws::CodeReaderLaws::passes_below))]
fn many<F: Fn(usize) -> Result<usize, Unfit>>(
    classes: &[u8],
    from: usize,
    first: u8,
    item: F,
) -> Result<usize, Unfit>
    requires callable { F.IsAlwaysCallable item }
    requires onward { (at next : ℕ) → F.post item at (Ok next) → at ≤ next }
    ensures { Repeats classes.now first (F.post item) from result }
{
    let mut at = from;
    while next_is(classes, at, first) {
        at = item(at + 1)?;
    }
    Ok(at)
}

#[tactic(auto, using(crate::proofs::laws::CodeReaderLaws::passes_below))]
fn kind(classes: &[u8], from: usize) -> Result<usize, Unfit>
    ensures { ReadsFrom classes.now kind_reader from result }
{
    if next_is_either(classes, from, WHOLE, BOOL) {
        return Ok(from + 1);
    }
    token(classes, from, REAL)
}

// After `attribute` or `event`: name `:` kind.
fn member(classes: &[u8], from: usize) -> Result<usize, Unfit>
    ensures { (s : Sort) (start : Token) → ReadsFrom classes.now (member_after s start) from result }
{
    let name = token(classes, from, NAME)?;
    let colon = token(classes, name, COLON)?;
    kind(classes, colon)
}

// Members that each begin with a token of this class.
fn members(classes: &[u8], from: usize, first: u8) -> Result<usize, Unfit>
    ensures { (s : Sort) → ReadsFrom classes.now (many first (member_after s)) from result }
{
    many(classes, from, first, |at| member(classes, at))
}

// After `action`: name `(` kind `)`.
fn action(classes: &[u8], from: usize) -> Result<usize, Unfit>
    ensures { (start : Token) → ReadsFrom classes.now (action_after start) from result }
{
    let name = token(classes, from, NAME)?;
    let open = token(classes, name, ROUND_OPEN)?;
    let kind = kind(classes, open)?;
    token(classes, kind, ROUND_CLOSE)
}

fn actions(classes: &[u8], from: usize) -> Result<usize, Unfit>
    ensures { ReadsFrom classes.now (many Tokens.ACTION action_after) from result }
{
    many(classes, from, ACTION, |at| action(classes, at))
}

// After `interface`: name `{` attributes, events, actions `}`.
fn interface(classes: &[u8], from: usize) -> Result<usize, Unfit>
    ensures { (start : Token) → ReadsFrom classes.now (interface_after start) from result }
{
    let name = token(classes, from, NAME)?;
    let open = token(classes, name, BRACE_OPEN)?;
    let attributes = members(classes, open, ATTRIBUTE)?;
    let events = members(classes, attributes, EVENT)?;
    let actions = actions(classes, events)?;
    token(classes, actions, BRACE_CLOSE)
}

fn interfaces(classes: &[u8], from: usize) -> Result<usize, Unfit>
    ensures { ReadsFrom classes.now (many Tokens.INTERFACE interface_after) from result }
{
    many(classes, from, INTERFACE, |at| interface(classes, at))
}

// A number, after its sign.
#[tactic(auto, using(crate::proofs::laws::CodeReaderLaws::passes_below))]
fn number(classes: &[u8], from: usize) -> Result<usize, Unfit>
    ensures { (negative : Bool) → ReadsFrom classes.now (number_reader negative) from result }
{
    if next_is(classes, from, WHOLE_NUMBER) {
        return Ok(from + 1);
    }
    token(classes, from, REAL_NUMBER)
}

// `true`, `false`, or a number with or without `-`.
#[tactic(auto, using(crate::proofs::laws::CodeReaderLaws::passes_below))]
fn literal(classes: &[u8], from: usize) -> Result<usize, Unfit>
    ensures { ReadsFrom classes.now literal_reader from result }
{
    if next_is_either(classes, from, TRUE, FALSE) {
        return Ok(from + 1);
    }
    if next_is(classes, from, MINUS) {
        return number(classes, from + 1);
    }
    number(classes, from)
}

// After an attribute's name: `=` literal.
fn assignment(classes: &[u8], from: usize) -> Result<usize, Unfit>
    ensures { (start : Token) → ReadsFrom classes.now (assignment_after start) from result }
{
    let equals = token(classes, from, EQUALS)?;
    literal(classes, equals)
}

fn assignments(classes: &[u8], from: usize) -> Result<usize, Unfit>
    ensures { ReadsFrom classes.now (many Tokens.NAME assignment_after) from result }
{
    many(classes, from, NAME, |at| assignment(classes, at))
}

// After `entity`: name `:` interface `{` assignments `}`.
fn entity(classes: &[u8], from: usize) -> Result<usize, Unfit>
    ensures { (start : Token) → ReadsFrom classes.now (entity_after start) from result }
{
    let name = token(classes, from, NAME)?;
    let colon = token(classes, name, COLON)?;
    let interface = token(classes, colon, NAME)?;
    let open = token(classes, interface, BRACE_OPEN)?;
    let set = assignments(classes, open)?;
    token(classes, set, BRACE_CLOSE)
}

fn entities(classes: &[u8], from: usize) -> Result<usize, Unfit>
    ensures { ReadsFrom classes.now (many Tokens.ENTITY entity_after) from result }
{
    many(classes, from, ENTITY, |at| entity(classes, at))
}

// Name `.` member.
fn dotted(classes: &[u8], from: usize) -> Result<usize, Unfit>
    ensures { ReadsFrom classes.now member_reader from result }
{
    let name = token(classes, from, NAME)?;
    let dot = token(classes, name, DOT)?;
    token(classes, dot, NAME)
}

// A literal without sign, name `.` member or, while openers may come, an opener; `depth` is how many may.
#[cycle(expression_factor_opener_term)]
#[tactic(auto, using(crate::proofs::laws::CodeReaderLaws::passes_below))]
fn factor(classes: &[u8], from: usize, depth: u32) -> Result<usize, Unfit>
    ensures { ReadsFrom classes.now (factor_reader depth) from result }
{
    if next_is(classes, from, NAME) {
        return dotted(classes, from);
    }
    if next_is_unsigned(classes, from) {
        return Ok(from + 1);
    }
    if depth == 0 {
        return Err(Unfit { at: from });
    }
    opener(classes, from, depth - 1)
}

// `real` `(` expression `)`, `(` expression `)`, or `-` factor; `inside` is the depth of what it encloses.
#[cycle(expression_factor_opener_term)]
#[tactic(auto, using(crate::proofs::laws::CodeReaderLaws::passes_below))]
fn opener(classes: &[u8], from: usize, inside: u32) -> Result<usize, Unfit>
    ensures { ReadsFrom classes.now (opener_reader (factor_reader inside)) from result }
{
    if next_is(classes, from, REAL) {
        let open = token(classes, from + 1, ROUND_OPEN)?;
        let parameter = expression(classes, open, inside)?;
        return token(classes, parameter, ROUND_CLOSE);
    }
    if next_is(classes, from, ROUND_OPEN) {
        let enclosed = expression(classes, from + 1, inside)?;
        return token(classes, enclosed, ROUND_CLOSE);
    }
    let minus = token(classes, from, MINUS)?;
    factor(classes, minus, inside)
}

// Factors under `*` and `/`.
#[cycle(expression_factor_opener_term)]
#[tactic(auto, using(crate::proofs::laws::CodeReaderLaws::passes_below))]
fn term(classes: &[u8], from: usize, depth: u32) -> Result<usize, Unfit>
    ensures { ReadsFrom classes.now (term_reader depth) from result }
{
    let mut at = factor(classes, from, depth)?;
    while next_is_either(classes, at, TIMES, DIVIDE) {
        at = factor(classes, at + 1, depth)?;
    }
    Ok(at)
}

// Terms under `+` and `-`.
#[cycle(expression_factor_opener_term)]
#[tactic(auto, using(crate::proofs::laws::CodeReaderLaws::passes_below))]
pub fn expression(classes: &[u8], from: usize, depth: u32) -> Result<usize, Unfit>
    ensures { ReadsFrom classes.now (expression_reader depth) from result }
{
    let mut at = term(classes, from, depth)?;
    while next_is_either(classes, at, PLUS, MINUS) {
        at = term(classes, at + 1, depth)?;
    }
    Ok(at)
}

// Name, or name `:` interface.
#[tactic(auto, using(crate::proofs::laws::CodeReaderLaws::passes_below))]
fn target(classes: &[u8], from: usize) -> Result<usize, Unfit>
    ensures { ReadsFrom classes.now target_reader from result }
{
    let name = token(classes, from, NAME)?;
    if !next_is(classes, name, COLON) {
        return Ok(name);
    }
    token(classes, name + 1, NAME)
}

// Optionally `with` attribute `=` expression.
#[tactic(auto, using(crate::proofs::laws::CodeReaderLaws::passes_below))]
fn filter(classes: &[u8], from: usize, depth: u32) -> Result<usize, Unfit>
    ensures { ReadsFrom classes.now (filter_reader depth) from result }
{
    if !next_is(classes, from, WITH) {
        return Ok(from);
    }
    let name = token(classes, from + 1, NAME)?;
    let equals = token(classes, name, EQUALS)?;
    expression(classes, equals, depth)
}

// After `value`: `changed`, or `=` expression.
#[tactic(auto, using(crate::proofs::laws::CodeReaderLaws::passes_below))]
fn test(classes: &[u8], from: usize, depth: u32) -> Result<usize, Unfit>
    ensures { ReadsFrom classes.now (test_reader depth) from result }
{
    if next_is(classes, from, CHANGED) {
        return Ok(from + 1);
    }
    let equals = token(classes, from, EQUALS)?;
    expression(classes, equals, depth)
}

// `event` name `from` target, its filter, `value` and its test.
fn clause(classes: &[u8], from: usize, depth: u32) -> Result<usize, Unfit>
    ensures { ReadsFrom classes.now (clause_reader depth) from result }
{
    let event = token(classes, from, EVENT)?;
    let name = token(classes, event, NAME)?;
    let source = token(classes, name, FROM)?;
    let place = target(classes, source)?;
    let with = filter(classes, place, depth)?;
    let value = token(classes, with, VALUE)?;
    test(classes, value, depth)
}

// `(` condition `)`, while openers may come, or a clause.
#[cycle(atom_condition_conjunction)]
#[tactic(auto, using(crate::proofs::laws::CodeReaderLaws::passes_below))]
pub fn atom(classes: &[u8], from: usize, depth: u32) -> Result<usize, Unfit>
    ensures { ReadsFrom classes.now (atom_reader depth) from result }
{
    if depth == 0 {
        return clause(classes, from, depth);
    }
    if !next_is(classes, from, ROUND_OPEN) {
        return clause(classes, from, depth);
    }
    let inside = condition(classes, from + 1, depth - 1)?;
    token(classes, inside, ROUND_CLOSE)
}

// Atoms under `and`.
#[cycle(atom_condition_conjunction)]
#[tactic(auto, using(crate::proofs::laws::CodeReaderLaws::passes_below))]
fn conjunction(classes: &[u8], from: usize, depth: u32) -> Result<usize, Unfit>
    ensures { ReadsFrom classes.now (conjunction_reader depth) from result }
{
    let mut at = atom(classes, from, depth)?;
    while next_is(classes, at, AND) {
        at = atom(classes, at + 1, depth)?;
    }
    Ok(at)
}

// Conjunctions under `or`.
#[cycle(atom_condition_conjunction)]
#[tactic(auto, using(crate::proofs::laws::CodeReaderLaws::passes_below))]
fn condition(classes: &[u8], from: usize, depth: u32) -> Result<usize, Unfit>
    ensures { ReadsFrom classes.now (condition_reader depth) from result }
{
    let mut at = conjunction(classes, from, depth)?;
    while next_is(classes, at, OR) {
        at = conjunction(classes, at + 1, depth)?;
    }
    Ok(at)
}

// `action` name `(` expression `)` `on` target, and its filter.
fn call(classes: &[u8], from: usize) -> Result<usize, Unfit>
    ensures { ReadsFrom classes.now call_reader from result }
{
    let action = token(classes, from, ACTION)?;
    let name = token(classes, action, NAME)?;
    let open = token(classes, name, ROUND_OPEN)?;
    let parameter = expression(classes, open, OPENERS)?;
    let close = token(classes, parameter, ROUND_CLOSE)?;
    let on = token(classes, close, ON)?;
    let place = target(classes, on)?;
    filter(classes, place, OPENERS)
}

// Each after a `,`.
fn calls(classes: &[u8], from: usize) -> Result<usize, Unfit>
    ensures { ReadsFrom classes.now (many Tokens.COMMA call_after) from result }
{
    many(classes, from, COMMA, |at| call(classes, at))
}

// Optionally `rank` and a number without `r`.
#[tactic(auto, using(crate::proofs::laws::CodeReaderLaws::passes_below))]
fn priority(classes: &[u8], from: usize) -> Result<usize, Unfit>
    ensures { ReadsFrom classes.now priority_reader from result }
{
    if !next_is(classes, from, RANK) {
        return Ok(from);
    }
    token(classes, from + 1, WHOLE_NUMBER)
}

// After `when`: its priority, condition `trigger` calls parted by `,` `end`.
fn rule(classes: &[u8], from: usize) -> Result<usize, Unfit>
    ensures { (start : Token) → ReadsFrom classes.now (rule_after start) from result }
{
    let priority = priority(classes, from)?;
    let condition = condition(classes, priority, OPENERS)?;
    let trigger = token(classes, condition, TRIGGER)?;
    let first = call(classes, trigger)?;
    let others = calls(classes, first)?;
    token(classes, others, END)
}

fn rules(classes: &[u8], from: usize) -> Result<usize, Unfit>
    ensures { ReadsFrom classes.now (many Tokens.WHEN rule_after) from result }
{
    many(classes, from, WHEN, |at| rule(classes, at))
}

// Interfaces, entities, `rules`, rules, `end`.
fn file(classes: &[u8]) -> Result<usize, Unfit>
    ensures { ReadsFrom classes.now file_reader 0 result }
{
    let interfaces = interfaces(classes, 0)?;
    let entities = entities(classes, interfaces)?;
    let start = token(classes, entities, RULES)?;
    let rules = rules(classes, start)?;
    token(classes, rules, END)
}

/// Are the tokens of these classes a file, with nothing after it?
pub fn parse(classes: &[u8]) -> Result<(), Unfit>
    ensures { ParsesAs classes.now result }
{
    let end = file(classes)?;
    if end < classes.len() {
        return Err(Unfit { at: end });
    }
    Ok(())
}
