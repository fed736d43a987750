// The classes of tokens, as specs/definitions/Tokens.antt numbers them. Numbers and not an enum: an export lends no slice of an enum, and `measure_text`
// lends the column of classes, as the definitions have it.
pub const NAME: u8 = 0;

pub const WHOLE_NUMBER: u8 = 1;

pub const REAL_NUMBER: u8 = 2;

pub const INTERFACE: u8 = 3;

pub const ATTRIBUTE: u8 = 4;

pub const EVENT: u8 = 5;

pub const ACTION: u8 = 6;

pub const ENTITY: u8 = 7;

pub const RULES: u8 = 8;

pub const WHEN: u8 = 9;

pub const FROM: u8 = 10;

pub const WITH: u8 = 11;

pub const VALUE: u8 = 12;

pub const CHANGED: u8 = 13;

pub const TRIGGER: u8 = 14;

pub const ON: u8 = 15;

pub const END: u8 = 16;

pub const AND: u8 = 17;

pub const OR: u8 = 18;

pub const TRUE: u8 = 19;

pub const FALSE: u8 = 20;

pub const WHOLE: u8 = 21;

pub const BOOL: u8 = 22;

pub const REAL: u8 = 23;

pub const BRACE_OPEN: u8 = 24;

pub const BRACE_CLOSE: u8 = 25;

pub const ROUND_OPEN: u8 = 26;

pub const ROUND_CLOSE: u8 = 27;

pub const COLON: u8 = 28;

pub const EQUALS: u8 = 29;

pub const COMMA: u8 = 30;

pub const DOT: u8 = 31;

pub const PLUS: u8 = 32;

pub const MINUS: u8 = 33;

pub const TIMES: u8 = 34;

pub const DIVIDE: u8 = 35;

pub const RANK: u8 = 36;
