// Kinds: what a token's class says, what fits, and what operators give. An expression with a fault inside has no kind.
ghost use Rattle.std.specs.Prelude.{◌≡◌};
ghost use Rattle.values.specs.definitions.Fitting.{number_kind, operand_fits, operands_fit, kinds_fit};
ghost use Rattle.checking.specs.inner_contracts.Directory.{kind_class};
ghost use Rattle.checking.specs.inner_contracts.Kinds.{kind_as, literal_class, real_of, number_of, operated_of};

use text::classes::{BOOL, REAL_NUMBER, WHOLE, WHOLE_NUMBER};
use values::Kind;

/// The kind that a kind's word says, by its class.
#[tactic(auto, using(crate::proofs::laws::KindLaws::whole_word, crate::proofs::laws::KindLaws::bool_word, crate::proofs::laws::KindLaws::real_word))]
pub fn kind_of(class: u8) -> Kind
    ensures { (k : Kind) → class ≡ kind_class k → result ≡ k }
{
    match class {
        WHOLE => Kind::Wholes,
        BOOL => Kind::Bools,
        _ => Kind::Reals,
    }
}

/// The kind of a literal, by the class of its last token.
#[tactic(auto, unfolding(crate::specs::inner_contracts::Kinds::literal_class))]
pub fn literal_kind(class: u8) -> Kind
    ensures { result ≡ literal_class class }
{
    match class {
        WHOLE_NUMBER => Kind::Wholes,
        REAL_NUMBER => Kind::Reals,
        _ => Kind::Bools,
    }
}

/// One kind, or none, which fits anywhere.
#[tactic(auto, unfolding(values::specs::definitions::Fitting::kinds_fit, values::specs::definitions::Fitting::same_kind))]
pub fn kinds_fit(j: Option<Kind>, k: Option<Kind>) -> bool
    ensures { result ≡ kinds_fit (kind_as j) (kind_as k) }
{
    match (j, k) {
        (Some(Kind::Wholes), Some(Kind::Wholes)) => true,
        (Some(Kind::Bools), Some(Kind::Bools)) => true,
        (Some(Kind::Reals), Some(Kind::Reals)) => true,
        (Some(_), Some(_)) => false,
        _ => true,
    }
}

/// Does it fit unary `-`? A bool never fits an operator.
#[tactic(auto, unfolding(values::specs::definitions::Fitting::operand_fits, values::specs::definitions::Fitting::number_kind))]
pub fn fits_operator(kind: Option<Kind>) -> bool
    ensures { result ≡ operand_fits number_kind (kind_as kind) }
{
    !matches!(kind, Some(Kind::Bools))
}

/// Do both fit `+`, `-`, `*` and `/`? They are one kind, but no bool.
#[tactic(auto, unfolding(values::specs::definitions::Fitting::operands_fit, values::specs::definitions::Fitting::operated_kind, values::specs::definitions::Fitting::number_kind, values::specs::definitions::Fitting::same_kind, values::specs::definitions::Fitting::has_kind))]
pub fn operands_fit(j: Option<Kind>, k: Option<Kind>) -> bool
    ensures { result ≡ operands_fit (kind_as j) (kind_as k) }
{
    match (j, k) {
        (Some(Kind::Bools), _) => false,
        (_, Some(Kind::Bools)) => false,
        (Some(Kind::Wholes), Some(Kind::Reals)) => false,
        (Some(Kind::Reals), Some(Kind::Wholes)) => false,
        _ => true,
    }
}

/// The kind under `real`, which takes a whole.
#[tactic(auto, unfolding(values::specs::definitions::Fitting::real_kind))]
pub fn real_kind(kind: Option<Kind>) -> Option<Kind>
    ensures { kind_as result ≡ real_of (kind_as kind) }
{
    match kind {
        Some(Kind::Wholes) => Some(Kind::Reals),
        _ => None,
    }
}

/// The kind under unary `-`.
#[tactic(auto, unfolding(values::specs::definitions::Fitting::number_kind))]
pub fn number_kind(kind: Option<Kind>) -> Option<Kind>
    ensures { kind_as result ≡ number_of (kind_as kind) }
{
    match kind {
        Some(Kind::Bools) => None,
        _ => kind,
    }
}

/// The kind under `+`, `-`, `*` and `/`.
#[tactic(auto, unfolding(values::specs::definitions::Fitting::operated_kind, values::specs::definitions::Fitting::number_kind, values::specs::definitions::Fitting::same_kind))]
pub fn operated_kind(j: Option<Kind>, k: Option<Kind>) -> Option<Kind>
    ensures { kind_as result ≡ operated_of (kind_as j) (kind_as k) }
{
    match (j, k) {
        (Some(Kind::Wholes), Some(Kind::Wholes)) => j,
        (Some(Kind::Reals), Some(Kind::Reals)) => j,
        _ => None,
    }
}
