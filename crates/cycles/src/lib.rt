// The cycles of a bench.
#![tactic(auto)]

pub mod bindings; // what all rules write
pub mod calls; // the writes of a rule at one binding
pub mod conditions; // whether a condition holds
pub mod cycle; // a cycle in the memory of the stores
pub mod evaluate; // references and cells
pub mod expressions; // the value of an expression
pub mod fields; // the fields of a line
pub mod finding; // the guards of a rule, found
pub mod fresh; // the fresh stores
pub mod guards; // what must hold for a rule to write anything
pub mod header; // the columns of a line
pub mod layout; // the sizes of memory
pub mod planes; // flags and cells in memory
pub mod quiescence; // which rules are tried
pub mod record; // sender, number and values of a record
pub mod rows; // the fields of a row, and the header of rows
pub mod rules; // the columns of a bench
pub mod store; // a store in memory, and the one before it
pub mod world; // what the parts of a rule are worked out in

pub use bindings::all_rules;
pub use calls::rule_at;
pub use conditions::condition;
pub use evaluate::Binding;
pub use expressions::expression;
pub use fresh::put_fresh_stores;
pub use planes::{
    Plane, are_stores, cell_token, is_sort, number, plane_fits, put_number, put_plane,
};
pub use rows::put_row_header;
pub use rules::Rules;
pub use store::{Inputs, Store, Stores};
pub use world::{Walked, World, Worlds};
