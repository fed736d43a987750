// The columns of a day sheet, and the room for its rows.

pub const SHEET_COLUMNS: usize = 80;

// Those of the line number,
pub const NUMBER_COLUMNS: usize = 10;

// and of each chosen cell after it.
pub const CELL_COLUMNS: usize = 14;

pub const MOST_CHOSEN: usize = 5;

// A real's digits, half of them in each of two rows. No value has a longer text.
pub const REAL_DIGITS: usize = 16;

pub const HALF_DIGITS: usize = 8;

// A row with its line feed.
pub const SHEET_ROW_BYTES: usize = SHEET_COLUMNS + 1;

// A line has two rows at most, a real column six closing rows.
pub const MOST_LINE_BYTES: usize = 2 * SHEET_ROW_BYTES;

pub const MOST_CLOSING_BYTES: usize = 6 * SHEET_ROW_BYTES;
