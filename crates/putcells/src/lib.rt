// Writing the cells of a row in form 2: those that are not 0, each as column:code.
#![tactic(auto)]

ghost use Rattle.std.specs.Prelude.{◌≡◌, true, ◌+◌, ◌<◌, ◌≤◌, length};
ghost use Rattle.pack.specs.Image.{largest_image};
ghost use Rattle.text.specs.Form.{before};
ghost use Rattle.text.specs.Writer.{cells_text};
ghost use Rattle.putcells.specs.Steps.{cell_text, first_after};

use putfields::{Sink, word, write_decimal};
use text::{COLON, COMMA, NEWLINE};

// The comma in front of a cell that is not the first on its line.
#[tactic(auto, using(crate::proofs::CellLaws::comma_length))]
fn write_comma<S: Sink>(out: &mut [u8], at: usize, first: bool) -> usize
    requires { length (before first) ≤ S.room out.old at }
    ensures taken { S.takes out.old at (before first) out.new result }
    ensures room { S.room out.new result + length (before first) ≡ S.room out.old at }
{
    if first {
        return at;
    }
    S::put(out, at, COMMA)
}

// One column; nothing of a cell that is 0.
#[tactic(auto, using(crate::proofs::CellLaws::cell_length))]
fn write_cell<S: Sink>(out: &mut [u8], at: usize, first: bool, column: usize, code: usize) -> usize
    requires { (column < 65536) × ((code < 65536) × (length (cell_text first column code) ≤ S.room out.old at)) }
    ensures taken { S.takes out.old at (cell_text first column code) out.new result }
    ensures room { S.room out.new result + length (cell_text first column code) ≡ S.room out.old at }
{
    if code == 0 {
        return at;
    }
    let a = write_comma::<S>(out, at, first);
    let b = write_decimal::<S>(out, a, column);
    let c = S::put(out, b, COLON);
    write_decimal::<S>(out, c, code)
}

// Whether the next cell is the first on its line.
#[tactic(auto, unfolding(crate::specs::Steps::first_after))]
pub fn first_after(first: bool, code: usize) -> bool
    ensures { result ≡ first_after first code }
{
    if code != 0 {
        return false;
    }
    first
}

// The cells of a row of so many columns, and the end of the line.
pub fn write_cells<S: Sink>(out: &mut [u8], at: usize, img: &[u16], i: usize, n: usize) -> usize
    requires { (i + n ≤ largest_image) × (length (cells_text true n 0 img.now i) ≤ S.room out.old at) }
    ensures taken { S.takes out.old at (cells_text true n 0 img.now i) out.new result }
    ensures room { S.room out.new result + length (cells_text true n 0 img.now i) ≡ S.room out.old at }
{
    let mut to = at;
    let mut first = true;
    for column in 0..n {
        let code = word(img, i + column);
        to = write_cell::<S>(out, to, first, column, code);
        first = first_after(first, code);
    }
    S::put(out, to, NEWLINE)
}
