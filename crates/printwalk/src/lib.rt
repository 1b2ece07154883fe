// A node prints its children, and each child prints itself: from the last record backwards, and from the end of the printout.
#![tactic(auto)]

mod put; // put.rt: bytes and numbers, each in front of what was written before

ghost use Rattle.std.specs.Prelude.{◌≡◌, true, ◌+◌};
ghost use Rattle.print.specs.Print.{show, show_each};
ghost use Rattle.measure.specs.Steps.{Sound, tree_at, trees_before, last_of};
ghost use Rattle.printwalk.specs.Steps.{Room, Prints};

use measure::{RECORD_WORDS, word};
use put::{put, put_leaf, put_number};

// How many records are left, and the place where what was printed begins.
#[derive(Clone, Copy)]
pub struct Cursor {
    pub left: usize,
    pub at: usize,
}

// The tree that ends with record n.
#[cycle(print_children_print_node)]
pub fn print_node(text: &[u8], tree: &[u16], n: usize, out: &mut [u8], to: usize) -> Cursor
    requires sound { Sound text.now tree.now (n + 1) }
    requires room { Room (show (tree_at text.now tree.now n)) out.old to }
    ensures { Prints text.now tree.now n (show (tree_at text.now tree.now n)) (trees_before text.now tree.now n) out.old to out.new result }
{
    let i = n * RECORD_WORDS;
    if word(tree, i) < pack::image::FIRST_NONTERMINAL {
        return Cursor {
            left: n,
            at: put_leaf(text, tree, n, out, to),
        };
    }
    let end = put(out, to, b')');
    let c = print_children(text, tree, n, word(tree, i + 2), out, end);
    let begin = c.at;
    let number = put_number(out, begin, word(tree, i + 1));
    let at = put(out, number, b'(');
    Cursor { left: c.left, at }
}

// The last k trees that stand after n records, each after a blank.
#[cycle(print_children_print_node)]
fn print_children(
    text: &[u8],
    tree: &[u16],
    n: usize,
    k: usize,
    out: &mut [u8],
    to: usize,
) -> Cursor
    requires sound { Sound text.now tree.now n }
    requires enough_trees { (last_of text.now tree.now n k).enough ≡ true }
    requires room { Room (show_each (last_of text.now tree.now n k).children) out.old to }
    ensures { Prints text.now tree.now n (show_each (last_of text.now tree.now n k).children) (last_of text.now tree.now n k).rest out.old to out.new result }
{
    let mut left = n;
    let mut at = to;
    for _children in (0..k).rev() {
        let c = print_node(text, tree, left - 1, out, at);
        let begin = c.at;
        at = put(out, begin, b' ');
        left = c.left;
    }
    Cursor { left, at }
}
