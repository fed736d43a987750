// Sets of cell numbers in memory, eight to a byte: the cells that moved, and which rows of sets have one of them.
#![tactic(auto)]

pub mod bits; // one bit of a number, one number of a set
pub mod moving; // the cells that moved
pub mod meeting; // the rows that have a number in common with a set

pub use bits::{add, has_bit, with_bit};
pub use meeting::rows_met;
pub use moving::{Pair, find_moved};
