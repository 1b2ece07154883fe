// What the actions of a parse share: where it stands, what a turn comes to, a record into the tree, and the room for it. The definition of
// the parse is in specs/, and what the actions come to in proofs/.
#![tactic(auto)]

ghost use Rattle.std.specs.Prelude.{◌≡◌, ◌+◌, ◌<◌, ◌≤◌, length, OnOk};
ghost use Rattle.records.specs.Inner.{full, put4};

mod parser; // parser.rt: where the parse stands, and the step that goes on
mod stack; // stack.rt: the parse states

use look::ParseError;
pub use parser::Parser;
pub use stack::Stack;

// What a parse gives beside the records in the lent tree.
#[derive(Clone, Copy)]
pub struct Parsed {
    pub code: u8,
    pub place: usize,
    pub length: usize,
    pub terminal: usize,
    pub records: usize,
    pub moves: u32,
}

// What a turn comes to that is not refused: the text is accepted, or a record is written and the parse goes on.
#[derive(Clone, Copy, Debug, PartialEq, Eq)]
pub enum Turned {
    Accepted,
    Went,
}

// The words of a record.
pub const RECORD_WORDS: usize = 4;

// A record into the tree.
#[tactic(auto, unfolding(crate::specs::Inner::put4))]
pub fn put(tree: &mut [u16], n: usize, words: [u16; 4])
    requires { n + 4 ≤ length tree.old }
    ensures { tree.new ≡ put4 tree.old n words }
{
    tree[n..n + RECORD_WORDS].copy_from_slice(&words);
}

// A number below 65536 as a word.
pub fn narrow(x: usize) -> u16
    requires { x < 65536 }
    ensures { result ≡ x }
{
    x as u16
}

// Whether there is room for one record more, and for one state more on a stack of this height.
#[tactic(auto, unfolding(crate::specs::Inner::full))]
pub fn full(room: usize, records: usize, height: usize) -> Result<(), ParseError>
    ensures value { result ≡ full room records height }
    ensures fits { OnOk result ((records < room) × (height < 512)) }
{
    if room <= records {
        return Err(ParseError::TreeFull);
    }
    if numbers::MOST_STATES <= height {
        return Err(ParseError::StackFull);
    }
    Ok(())
}
