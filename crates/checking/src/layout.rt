// How many items a file may have, and the rows of a directory and of the column of scopes.

// "Most: 16 interfaces, 12 members each, 32 entities, 64 rules; per rule 3 variables, 8 clauses, 8 calls"
pub const MOST_INTERFACES: usize = 16;

pub const MOST_MEMBERS: usize = 12;

pub const MOST_ENTITIES: usize = 32;

pub const MOST_RULES: usize = 64;

pub const MOST_VARIABLES: usize = 3;

pub const MOST_CLAUSES: usize = 8;

pub const MOST_CALLS: usize = 8;

// "one number 0 to 9"
pub const MOST_PRIORITY: u32 = 9;

// "At most 32,768 bytes", and so at most that many tokens.
pub const MOST_BYTES: usize = 32768;

// ---- numbers for none, the first beyond those of the items

pub const NO_INTERFACE: usize = MOST_INTERFACES;

pub const NO_ENTITY: usize = MOST_ENTITIES;

pub const NO_MEMBER: usize = MOST_MEMBERS;

// ---- the directory

// Three rows with counts.
pub const INTERFACE_COUNT_ROW: usize = 0;

pub const ENTITY_COUNT_ROW: usize = 1;

pub const RULE_COUNT_ROW: usize = 2;

// The first row of each part: where each interface begins,
pub const INTERFACE_ROWS: usize = 3;

// how many members each interface has,
pub const MEMBER_COUNT_ROWS: usize = INTERFACE_ROWS + MOST_INTERFACES;

// where each member begins, with the same number of rows for each interface,
pub const MEMBER_ROWS: usize = MEMBER_COUNT_ROWS + MOST_INTERFACES;

// where each entity begins,
pub const ENTITY_ROWS: usize = MEMBER_ROWS + MOST_INTERFACES * MOST_MEMBERS;

// where each rule begins,
pub const RULE_ROWS: usize = ENTITY_ROWS + MOST_ENTITIES;

// and the number of each entity's interface.
pub const ENTITY_INTERFACE_ROWS: usize = RULE_ROWS + MOST_RULES;

// All rows.
pub const DIRECTORY: usize = ENTITY_INTERFACE_ROWS + MOST_ENTITIES;

// ---- references and scopes

// A rule's first variable, as a reference: the numbers below are entities.
pub const FIRST_VARIABLE: usize = MOST_ENTITIES;

// The rows of a rule: how many variables it has, and the interface of each.
pub const SCOPE_ROWS: usize = 1 + MOST_VARIABLES;

// The rows of all rules.
pub const ALL_SCOPE_ROWS: usize = SCOPE_ROWS * MOST_RULES;

// ---- the same numbers in fewer bits, for parameters and counters that have no more

pub const MOST_INTERFACES_8: u8 = MOST_INTERFACES as u8;

pub const MOST_MEMBERS_8: u8 = MOST_MEMBERS as u8;

pub const NO_MEMBER_8: u8 = NO_MEMBER as u8;

pub const MOST_ENTITIES_8: u8 = MOST_ENTITIES as u8;

pub const MOST_RULES_8: u8 = MOST_RULES as u8;

pub const MOST_VARIABLES_8: u8 = MOST_VARIABLES as u8;

pub const FIRST_VARIABLE_8: u8 = FIRST_VARIABLE as u8;

pub const MOST_INTERFACES_16: u16 = MOST_INTERFACES as u16;

pub const MOST_MEMBERS_16: u16 = MOST_MEMBERS as u16;

pub const MOST_ENTITIES_16: u16 = MOST_ENTITIES as u16;

pub const MOST_RULES_16: u16 = MOST_RULES as u16;

pub const FIRST_VARIABLE_16: u16 = FIRST_VARIABLE as u16;

pub const INTERFACE_ROWS_16: u16 = INTERFACE_ROWS as u16;

pub const MEMBER_ROWS_16: u16 = MEMBER_ROWS as u16;

pub const ENTITY_ROWS_16: u16 = ENTITY_ROWS as u16;

pub const RULE_ROWS_16: u16 = RULE_ROWS as u16;

pub const MOST_MEMBERS_32: u32 = MOST_MEMBERS as u32;

pub const INTERFACE_ROWS_32: u32 = INTERFACE_ROWS as u32;

pub const MEMBER_ROWS_32: u32 = MEMBER_ROWS as u32;

pub const ENTITY_ROWS_32: u32 = ENTITY_ROWS as u32;
