// The memory of cells and planes, of columns, ranges and guards.
use checking::layout::{ALL_SCOPE_ROWS, MOST_ENTITIES, MOST_MEMBERS, MOST_RULES};

// ---- cells

pub const CELL_BYTES: usize = 9;

// A cell for each member that an entity may have, and their bytes.
pub const ENTITY_CELLS: usize = MOST_MEMBERS;

pub const ENTITY_CELL_BYTES: usize = ENTITY_CELLS * CELL_BYTES;

// The cells of as many entities as a file may have, and their bytes.
pub const MOST_CELLS: usize = MOST_ENTITIES * ENTITY_CELLS;

pub const MOST_CELL_BYTES: usize = MOST_ENTITIES * ENTITY_CELL_BYTES;

// Pending cells: their bytes, and behind these a byte for each cell, its mark.
pub const MOST_PENDING_BYTES: usize = MOST_CELL_BYTES + MOST_CELLS;

// The tag of a cell with no reading.
pub const NO_READING: u8 = 4;

// ---- planes

// A number's bytes.
pub const NUMBER_BYTES: usize = 4;

// An entity's bytes in a plane: its flag and its cells.
pub const ENTITY_BYTES: usize = 1 + ENTITY_CELL_BYTES;

// A store's flags say absent or present; those of a line's readings may also say nothing.
pub const STORE_FLAGS: u8 = 2;

pub const KEPT_FLAGS: u8 = 3;

// The two stores of as many entities as a file may have.
pub const MOST_STORES_BYTES: usize = 2 * ENTITY_BYTES * MOST_ENTITIES;

// ---- lines and rows

// "A line of names: .., at most 32,768 bytes"
pub const MOST_HEADER_BYTES: usize = 32768;

// A line of names begins `by `.
pub const BY_BYTES: usize = 3;

// "lines of values in that order, at most 8,192 bytes"
pub const MOST_RECORD_BYTES: usize = 8192;

// "The stated size of memory for a row is 32,768 bytes at most"
pub const MOST_ROW_BYTES: usize = 32768;

// An entity's members have columns, and its presence after them.
pub const PRESENCE_COLUMN: usize = MOST_MEMBERS;

pub const ENTITY_COLUMNS: usize = PRESENCE_COLUMN + 1;

pub const MOST_COLUMNS: usize = MOST_ENTITIES * ENTITY_COLUMNS;

// ---- rules

// Behind the rows of scopes each rule has the set of the cells that it reads, eight to a byte.
pub const READ_SETS_AT: usize = ALL_SCOPE_ROWS;

pub const READ_SET_BYTES: usize = MOST_CELLS / 8;

pub const SCOPES_BYTES: usize = READ_SETS_AT + READ_SET_BYTES * MOST_RULES;

// A rule has room for so many guards.
pub const MOST_GUARDS: usize = 16;
