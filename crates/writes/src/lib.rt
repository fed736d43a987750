// The writes of a cycle, each made in memory if it is to stand there.
#![tactic(auto)]

pub mod pending; // pending cells and their stamps

pub use pending::put_write;
