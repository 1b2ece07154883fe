// The codes that are given back, by name and in the order of their numbers, the limits that they guard, what the shape test says, and
// how words are handed to a caller.
#![tactic(auto)]

ghost use Rattle.std.specs.Prelude.{◌≡◌, length};
ghost use Rattle.numbers.specs.Front.{Delivers, deliver};
ghost use Rattle.numbers.specs.Verdicts.{verdict_of, is_wrong, verdict_code, verdict_place};

pub const DONE: u8 = 0;

pub const NOT_THE_FORM: u8 = 1;

pub const TEXT_TOO_LONG: u8 = 2;

pub const ROOM_TOO_SMALL: u8 = 3;

pub const WRONG_SHAPE: u8 = 4;

pub const CHECK_FAILS: u8 = 5;

pub const QUERY_TOO_LONG: u8 = 6;

pub const NO_TERMINAL: u8 = 7;

pub const UNEXPECTED: u8 = 8;

pub const NO_GROUP: u8 = 9;

pub const STUCK: u8 = 10;

pub const TREE_FULL: u8 = 11;

pub const STACK_FULL: u8 = 12;

pub const ALLOWANCE_USED_UP: u8 = 13;

// The most moves that a caller can allow.
pub const GREATEST_ALLOWANCE: u32 = 4294967295;

// The bytes of the longest text, a pack text as well as a query.
pub const LONGEST_TEXT: usize = 65535;

// The most records that a tree has room for, and the most states that the stack holds.
pub const MOST_RECORDS: usize = 65535;

pub const MOST_STATES: usize = 512;

// The place of the first wrong word, where the shape test finds one.
#[derive(Clone, Copy, Debug, PartialEq, Eq)]
pub struct WrongWord(pub usize);

// Whether some word is wrong.
#[tactic(auto, unfolding(crate::specs::Verdicts::is_wrong))]
pub fn is_wrong(v: Result<(), WrongWord>) -> bool
    ensures { result ≡ is_wrong (verdict_of v) }
{
    match v {
        Ok(()) => false,
        Err(_) => true,
    }
}

// The code of what the shape test says.
#[tactic(auto, unfolding(crate::specs::Verdicts::verdict_code))]
pub fn verdict_code(v: Result<(), WrongWord>) -> u8
    ensures { result ≡ verdict_code (verdict_of v) }
{
    match v {
        Ok(()) => DONE,
        Err(_) => WRONG_SHAPE,
    }
}

// The place of the first wrong word, and 0 where there is none.
#[tactic(auto, unfolding(crate::specs::Verdicts::verdict_place))]
pub fn verdict_place(v: Result<(), WrongWord>) -> usize
    ensures { result ≡ verdict_place (verdict_of v) }
{
    match v {
        Ok(()) => 0,
        Err(WrongWord(place)) => place,
    }
}

// What is given back by a function that fills a buffer: the code, and the number that goes with it.
#[derive(Clone, Copy)]
pub struct Answer {
    pub code: u8,
    pub number: usize,
}

// Puts words at the front of the buffer where there is room for them, and leaves it untouched where there is not. Word by word, and not
// inlined: std's copy is a call of the C library, as is what the compiler makes of this loop where it knows the words to be apart from the
// buffer, and for C nothing is needed of that library but its clearing.
#[inline(never)]
pub fn deliver(words: &[u16], buffer: &mut [u16]) -> Answer
    ensures { Delivers (deliver words.now (length buffer.old)) buffer.old buffer.new result }
{
    let size = words.len();
    if buffer.len() < size {
        return Answer {
            code: ROOM_TOO_SMALL,
            number: size,
        };
    }
    for i in 0..size {
        buffer[i] = words[i];
    }
    Answer {
        code: DONE,
        number: size,
    }
}
