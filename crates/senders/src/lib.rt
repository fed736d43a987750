// Lines of senders on a bench: the state image, a record in a state, and rows.
#![tactic(auto)]

pub mod fingerprint; // of a bench text
pub mod judge; // what a state says to a line
pub mod layout; // the sizes of the state image
pub mod names; // the form of a sender's name
pub mod parts; // the senders' parts of a state image
pub mod record; // a record on a state
pub mod rows; // the row of a sender
pub mod state; // the state image
pub mod turn; // what a line does, or why it is refused

pub use names::is_sender;
pub use record::advance;
pub use rows::{show, show_place};
pub use state::{is_state, put_fresh};
pub use turn::{LineError, Turn};
