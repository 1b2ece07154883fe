// Reading one cell of a row in form 2 at the front of the bytes that are left. A right one gives the bytes behind it.
#![tactic(auto)]

ghost use Rattle.std.specs.Prelude.{◌≡◌, Bool, List, [], ◌∷◌, ◌++◌, ℕ, ◌-◌, ◌≤◌, MatchOption};
ghost use Rattle.pack.specs.Image.{largest_image};
ghost use Rattle.text.specs.Form.{newline, before};
ghost use Rattle.text.specs.Reader.{expect, read_cells};
ghost use Rattle.fields.specs.Steps.{IsWrong};
ghost use Rattle.onecell.specs.Steps.{NextCell};

use fields::{read_number, stands};
use text::{COLON, COMMA, GREATEST_WORD};

// A cell of form 2.
#[derive(Clone, Copy)]
pub struct Cell {
    pub column: usize,
    pub code: u16,
}

// A cell in a row of n: its column, which is `least` or a later one, a colon, and its code.
fn cell_at(bytes: &[u8], least: usize, n: usize) -> Option<(Cell, &[u8])>
    requires { (least ≤ n) × (n ≤ largest_image) }
    ensures { (first : Bool) (line : List ℕ) → line ≡ before first ++ bytes.now → IsWrong (expect (newline ∷ [])) line → MatchOption result (IsWrong (read_cells first (n - least) least) line) (λ r. NextCell first line least n r.0 r.1.now) }
{
    let (number, rest) = read_number(bytes, GREATEST_WORD)?;
    let column = number as usize;
    if column < least {
        return None; // columns rise
    }
    if n <= column {
        return None; // and lie inside the row
    }
    let rest = stands(rest, COLON)?;
    let (code, rest) = read_number(rest, GREATEST_WORD)?;
    if code == 0 {
        return None; // a code is not 0
    }
    let code = code as u16;
    Some((Cell { column, code }, rest))
}

// The cell that stands next, behind a comma if it is not the first.
pub fn next_cell(bytes: &[u8], first: bool, least: usize, n: usize) -> Option<(Cell, &[u8])>
    requires in_bounds { (least ≤ n) × (n ≤ largest_image) }
    requires no_newline { IsWrong (expect (newline ∷ [])) bytes.now }
    ensures { MatchOption result (IsWrong (read_cells first (n - least) least) bytes.now) (λ r. NextCell first bytes.now least n r.0 r.1.now) }
{
    if first {
        return cell_at(bytes, least, n);
    }
    let rest = stands(bytes, COMMA)?;
    cell_at(rest, least, n)
}
