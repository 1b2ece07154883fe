// The parse; a leaf's bytes are passed on.
#![tactic(auto)]

ghost use Rattle.std.specs.Prelude.{◌≡◌};
ghost use Rattle.records.specs.Parse.{before, parse, tree_after};

pub use leaf::{Part, leaf, leaf_part};
use numbers::WrongWord;
pub use records::Parsed;

mod run; // run.rt: turn after turn

// A refusal before the run: all but the code and the place is 0.
fn refusal(code: u8, place: usize) -> Parsed
    ensures { result ≡ (before code place).parsed }
{
    Parsed {
        code,
        place,
        length: 0,
        terminal: 0,
        records: 0,
        moves: 0,
    }
}

// The parse of a text. It asks nothing.
pub fn parse(img: &[u16], text: &[u8], tree: &mut [u16], allowance: u32) -> Parsed
    ensures value { result ≡ (parse img.now text.now tree.old allowance).parsed }
    ensures tree_after { tree.new ≡ tree_after tree.old (parse img.now text.now tree.old allowance) }
{
    if numbers::LONGEST_TEXT < text.len() {
        return refusal(numbers::QUERY_TOO_LONG, 0);
    }
    match shape::shape(img) {
        Err(WrongWord(place)) => refusal(numbers::WRONG_SHAPE, place),
        Ok(()) => run::run(img, text, tree, allowance),
    }
}
