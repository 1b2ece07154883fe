// The text forms of a pack: what its definitions speak of.
#![tactic(auto)]

// A field is a number or a set.
#[derive(Clone, Copy)]
pub enum Kind {
    Number,
    Set,
}

// The form of a pack text. Form 1 has all cells of act, goto and move, and form 2 those that are not 0.
#[derive(Clone, Copy)]
pub enum Form {
    One,
    Two,
}

// What stands behind the `=` of a line: so many numbers, those of so many numbers that are not 0, so many sets, a production, or a group.
#[derive(Clone, Copy)]
pub enum Row {
    Numbers(usize),
    Cells(usize),
    Sets(usize),
    Production,
    Group,
}

// The value of a field and the bytes that it takes; 0 bytes where none stands there.
#[derive(Clone, Copy)]
pub struct Field {
    pub value: u64,
    pub used: usize,
}

pub const NEWLINE: u8 = 10;

pub const COMMA: u8 = 44;

pub const COLON: u8 = 58;

// The greatest number of a pack text.
pub const GREATEST_WORD: u32 = 65535;

// The tables, and the bytes of the longest of their names.
pub const TABLES: usize = 9;

pub const LONGEST_NAME: usize = 7;
