// Prints the derivation that the records of a tree stand for.
#![tactic(auto)]

ghost use Rattle.std.specs.Prelude.{◌≡◌, length};
ghost use Rattle.numbers.specs.Front.{buffer_after};
ghost use Rattle.print.specs.Print.{print};

use numbers::Answer;

pub const NOT_ONE_TREE: u8 = 14;

pub const TOO_DEEP: u8 = 15;

// The most nodes on one way down.
const MOST_NODES: usize = 256;

// Prints a tree. Codes 14, 15 and 3 leave the buffer untouched; done puts the bytes of the printout at its front. It asks nothing.
pub fn print(text: &[u8], tree: &[u16], buffer: &mut [u8]) -> Answer
    ensures value { result ≡ (print text.now tree.now (length buffer.old)).answer }
    ensures buffer_after { buffer.new ≡ buffer_after buffer.old (print text.now tree.now (length buffer.old)) }
{
    let Some(1) = measure::height(tree) else {
        return Answer {
            code: NOT_ONE_TREE,
            number: 0,
        };
    };
    let last = tree.len() / measure::RECORD_WORDS - 1;
    let Ok(m) = measure::measure_node(text, tree, last, MOST_NODES, 0) else {
        return Answer {
            code: TOO_DEEP,
            number: 0,
        };
    };
    let size = m.size;
    if buffer.len() < size {
        return Answer {
            code: numbers::ROOM_TOO_SMALL,
            number: size,
        };
    }
    printwalk::print_node(text, tree, last, buffer, size);
    Answer {
        code: numbers::DONE,
        number: size,
    }
}
