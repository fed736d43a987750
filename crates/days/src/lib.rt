// A text of readings run on from a state, and its day sheet.
#![tactic(auto)]

pub mod choosing; // the chosen cells of a sheet
pub mod sheet; // the day sheet
