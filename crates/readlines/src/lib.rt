// Reading the lines of a table, one after the other, and the end of the text.
#![tactic(auto)]

ghost use Rattle.std.specs.Prelude.{◌≡◌, [], ◌*◌, ◌≤◌, MatchResult, length};
ghost use Rattle.pack.specs.Image.{largest_image};
ghost use Rattle.text.specs.Form.{row_width};
ghost use Rattle.text.specs.Reader.{read_lines, ended};
ghost use Rattle.readlines.specs.Steps.{ReadsLines, WrongFrom};

use rowkinds::row_width;
use rows::read_line;
use text::Row;

// A line that is wrong, or missing: the bytes from its start on.
#[derive(Clone, Copy)]
pub struct WrongLine<'t> {
    pub from: &'t [u8],
}

// So many lines of a table, each into its own words.
#[tactic(auto, using(crate::proofs::LineLaws::row_inside))]
pub fn read_lines<'t>(
    bytes: &'t [u8],
    rows: &mut [u16],
    name: &[u8],
    row: Row,
    n: usize,
) -> Result<&'t [u8], WrongLine<'t>>
    requires whole { length rows.old ≡ n * row_width row }
    requires in_bounds { n * row_width row ≤ largest_image }
    ensures { MatchResult result (λ r. ReadsLines (read_lines name.now row n) bytes.now rows.new r.now) (λ e. WrongFrom (read_lines name.now row n) bytes.now e.from.now) }
{
    let mut left = bytes;
    for i in 0..n {
        let width = row_width(row);
        let at = i * width;
        let Some(rest) = read_line(left, &mut rows[at..at + width], name, row) else {
            return Err(WrongLine { from: left });
        };
        left = rest;
    }
    Ok(left)
}

// Nothing follows the last line.
pub fn ended(bytes: &[u8]) -> Result<(), WrongLine<'_>>
    ensures { MatchResult result (λ _. ReadsLines ended bytes.now [] []) (λ e. WrongFrom ended bytes.now e.from.now) }
{
    if bytes.is_empty() {
        return Ok(());
    }
    Err(WrongLine { from: bytes })
}
