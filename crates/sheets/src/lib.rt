// The day sheet's rows: those of a printed line and the closing rows of the real columns, put into lent memory. What puts answers the offset
// after it.
#![tactic(auto)]

pub mod layout; // columns
pub mod folds; // lowest, highest and last
pub mod rows; // a printed line
pub mod closing; // closing rows

pub use closing::put_closings;
pub use folds::{folded_values, no_folds};
pub use rows::put_line;

// The set values of a real column so far: its lowest, its highest and its last, if there is one.
#[derive(Clone, Copy)]
pub struct Fold {
    pub lowest: f64,
    pub highest: f64,
    pub last: f64,
    pub found: bool,
}
