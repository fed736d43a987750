// The state image: a fingerprint, the number of known senders, two stores, and a part for each sender.
use checking::layout::MOST_ENTITIES;
use cycles::layout::{ENTITY_BYTES, MOST_STORES_BYTES, NUMBER_BYTES};

// "Up to eight senders are known"
pub const MOST_SENDERS: usize = 8;

// "24 bytes at most"
pub const MOST_NAME_BYTES: usize = 24;

// Where the number of known senders stands: after the fingerprint. The stores begin after it.
pub const COUNT_AT: usize = NUMBER_BYTES;

pub const HEAD_BYTES: usize = COUNT_AT + 1;

// A sender's part: its name's length and its name, its last number, and then a plane.
pub const NAME_PLACE: usize = 1 + MOST_NAME_BYTES;

pub const SENDER_HEAD_BYTES: usize = NAME_PLACE + NUMBER_BYTES;

pub const MOST_SENDER_BYTES: usize = SENDER_HEAD_BYTES + ENTITY_BYTES * MOST_ENTITIES;

// The image for as many entities as a file may have, and as many senders as may be known.
pub const STATE: usize = HEAD_BYTES + MOST_STORES_BYTES + MOST_SENDERS * MOST_SENDER_BYTES;

// "It never exceeds 4,294,967,295"
pub const GREATEST_NUMBER: u64 = 4294967295;

// What 4 bytes say is below it.
pub const NUMBERS_BELOW: u64 = 4294967296;

// The greatest prime below 2 ^ 32, and what 2 ^ 32 leaves modulo it.
pub const PRIME: u64 = 4294967291;

pub const HALF: u64 = 4294967296;

pub const HALF_LEAVES: u64 = HALF - PRIME;

// The fingerprint's base, its square and its cube, and what three bytes add by their number alone.
pub const BASE: u64 = 257;

pub const BASE_SQUARED: u64 = BASE * BASE;

pub const BASE_CUBED: u64 = BASE * BASE_SQUARED;

pub const THREE_ONES: u64 = BASE_SQUARED + BASE + 1;
