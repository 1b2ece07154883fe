// Reading the cells of a row in form 2: what stands at the front of the bytes that are left becomes the words of the row. A right row gives
// the bytes behind it.
#![tactic(auto)]

ghost use Rattle.std.specs.Prelude.{◌≡◌, true, [], ◌∷◌, ◌++◌, ◌+◌, ◌<◌, ◌≤◌, MatchOption, length, take};
ghost use Rattle.pack.specs.Image.{largest_image};
ghost use Rattle.text.specs.Reader.{read_cells, zeros};
ghost use Rattle.fields.specs.Steps.{IsWrong, Reads};

use fields::stands;
use onecell::next_cell;
use text::NEWLINE;

// So many words 0 behind the words so far.
#[tactic(auto, using(crate::proofs::TurnLaws::filled))]
pub fn pad(img: &mut [u16], words: usize, n: usize)
    requires { words + n ≤ length img.old }
    ensures { take (words + n) img.new ≡ take words img.old ++ zeros n }
{
    img[words..words + n].fill(0);
}

// A code behind so many words 0.
fn put_code(img: &mut [u16], words: usize, gap: usize, code: u16)
    requires { words + gap < length img.old }
    ensures { take (words + (gap + 1)) img.new ≡ (take words img.old ++ zeros gap) ++ (code ∷ []) }
{
    pad(img, words, gap);
    img[words + gap] = code;
}

// All cells of a row in form 2.
pub fn read_cells<'t>(bytes: &'t [u8], row: &mut [u16]) -> Option<&'t [u8]>
    requires { length row.old ≤ largest_image }
    ensures { MatchOption result (IsWrong (read_cells true (length row.old) 0) bytes.now) (λ r. Reads (read_cells true (length row.old) 0) bytes.now row.new r.now) }
{
    let n = row.len();
    let mut left = bytes;
    let mut next: usize = 0;
    let mut first = true;
    'columns: loop {
        if let Some(rest) = stands(left, NEWLINE) {
            pad(row, next, n - next);
            return Some(rest);
        }
        let (cell, rest) = next_cell(left, first, next, n)?;
        put_code(row, next, cell.column - next, cell.code);
        left = rest;
        next = cell.column + 1;
        first = false;
    }
}
