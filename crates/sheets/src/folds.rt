// The lowest, highest and last set value of each real column, over the lines printed so far.
ghost use Rattle.std.specs.Prelude.{◌≡◌, cond, ◌≤◌, length, replicate};
ghost use Rattle.std.specs.Float.Ieee.{lt};
ghost use Rattle.sheets.specs.definitions.Layout;
ghost use Rattle.sheets.specs.definitions.Folds.{NONE_SET, folded, folded_value, folded_values};

use crate::Fold;
use crate::layout::MOST_CHOSEN;
use values::Value;

/// A column without a set value yet, for each that there may be.
pub fn no_folds() -> [Fold; MOST_CHOSEN]
    ensures { result ≡ replicate Layout.MOST_CHOSEN NONE_SET }
{
    let none_set = Fold {
        lowest: 0.0,
        highest: 0.0,
        last: 0.0,
        found: false,
    };
    [none_set; MOST_CHOSEN]
}

// The lower of two values. Of two zeros neither is lower, so the earlier one stays; `min` may give either.
fn lower(earlier: f64, later: f64) -> f64
    ensures { result ≡ cond (lt later earlier) later earlier }
{
    if later < earlier {
        return later;
    }
    earlier
}

fn higher(earlier: f64, later: f64) -> f64
    ensures { result ≡ cond (lt earlier later) later earlier }
{
    if earlier < later {
        return later;
    }
    earlier
}

#[tactic(auto, unfolding(crate::specs::definitions::Folds::folded))]
fn folded(f: Fold, x: f64) -> Fold
    ensures { result ≡ folded f x }
{
    if !f.found {
        return Fold {
            lowest: x,
            highest: x,
            last: x,
            found: true,
        };
    }
    Fold {
        lowest: lower(f.lowest, x),
        highest: higher(f.highest, x),
        last: x,
        found: true,
    }
}

// Only a set real enters.
#[tactic(auto, unfolding(crate::specs::definitions::Folds::folded_value))]
fn folded_value(f: Fold, v: Value) -> Fold
    ensures { result ≡ folded_value f v }
{
    match v {
        Value::Real(x) if !x.is_nan() => folded(f, x),
        _ => f,
    }
}

/// The folds with a line's values, each in its column.
#[tactic(auto, using(crate::proofs::laws::FoldLaws::values_put), unfolding(crate::specs::definitions::Folds::folded_values))]
pub fn folded_values(so_far: [Fold; MOST_CHOSEN], values: &[Value]) -> [Fold; MOST_CHOSEN]
    requires { length values.now ≤ Layout.MOST_CHOSEN }
    ensures { result ≡ folded_values so_far values.now }
{
    let mut folds = so_far;
    for (i, &v) in values.iter().enumerate() {
        folds[i] = folded_value(folds[i], v);
    }
    folds
}
