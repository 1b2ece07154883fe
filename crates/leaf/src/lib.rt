// A leaf's bytes.
#![tactic(auto)]

ghost use Rattle.std.specs.Prelude.{◌≡◌, ◌+◌, ◌≤◌, length};
ghost use Rattle.leaf.specs.Leaf.{leaf_part, leaf_bytes};

use pack::image;

// A part of a text: where it starts, and its length.
#[derive(Clone, Copy)]
pub struct Part {
    pub start: usize,
    pub length: usize,
}

// The part of the text that a leaf's record stands for, or the empty part at its front where the record is no leaf of this text.
#[tactic(auto, unfolding(crate::specs::Leaf::leaf_part))]
pub fn leaf_part(text: &[u8], terminal: u16, start: u16, size: u16, state: u16) -> Part
    ensures value { result ≡ leaf_part text.now terminal start size state }
    ensures length_in_bounds { result.start + result.length ≤ length text.now }
{
    let none = Part {
        start: 0,
        length: 0,
    };
    if terminal < 1 || image::FIRST_NONTERMINAL <= usize::from(terminal) {
        return none;
    }
    let from = usize::from(start);
    let bytes = usize::from(size);
    if text.len() < from + bytes {
        return none;
    }
    Part {
        start: from,
        length: bytes,
    }
}

// A leaf's bytes: that part of the lent text itself.
#[tactic(auto, unfolding(crate::specs::Leaf::leaf_bytes))]
pub fn leaf(text: &[u8], terminal: u16, start: u16, size: u16, state: u16) -> &[u8]
    ensures { result.now ≡ leaf_bytes text.now terminal start size state }
{
    let p = leaf_part(text, terminal, start, size, state);
    let a = p.start;
    let e = a + p.length;
    &text[a..e]
}
