// Reading the first two lines, the tables, and what stands behind the head.
ghost use Rattle.std.specs.Prelude.{◌≡◌, [], ◌*◌, ◌<◌, ◌≤◌, MatchResult, length};
ghost use Rattle.pack.specs.Image.{largest_image, needed};
ghost use Rattle.pack.specs.Laid.{Sized};
ghost use Rattle.text.specs.Form.{row_width, table_at, tables_of, table_words};
ghost use Rattle.text.specs.Reader.{then_lines, read_lines, read_tables, read_head, ended};
ghost use Rattle.text.specs.Reader.Lines.{all, wrong_from};
ghost use Rattle.readlines.specs.Steps.{ReadsLines, WrongFrom};

use firstline::first_line;
use pack::image::HEAD_WORDS;
use readlines::{WrongLine, ended, read_lines};
use rowkinds::{lines_of, row_of, row_width};
use rows::read_line;
use text::{Form, Row};

// The first two lines. The limits of the sizes are a part of the form of their line.
pub fn read_head<'t>(
    text: &'t [u8],
    form: Form,
    head: &mut [u16],
) -> Result<&'t [u8], WrongLine<'t>>
    requires { length head.old ≡ 9 }
    ensures { MatchResult result (λ r. (read_head form text.now ≡ all head.new r.now) × (length r.now ≤ length text.now)) (λ e. (read_head form text.now ≡ wrong_from e.from.now) × (length e.from.now ≤ length text.now)) }
{
    let Some(rest) = first_line(text, form) else {
        return Err(WrongLine { from: text });
    };
    head[0] = 1;
    let Some(left) = read_line(rest, &mut head[1..], b"size=", Row::Numbers(8)) else {
        return Err(WrongLine { from: rest });
    };
    if shape::sizes(head).is_err() {
        return Err(WrongLine { from: rest });
    }
    Ok(left)
}

// Table i, as the sizes in the head say, into its own words.
fn read_table<'t>(
    bytes: &'t [u8],
    form: Form,
    head: &[u16],
    table: &mut [u16],
    i: usize,
) -> Result<&'t [u8], WrongLine<'t>>
    requires head_there { (9 ≤ length head.now) × (i < 9) }
    requires whole { length table.old ≡ (table_at form head.now i).lines * row_width (table_at form head.now i).row }
    requires in_bounds { (table_at form head.now i).lines * row_width (table_at form head.now i).row ≤ largest_image }
    ensures { MatchResult result (λ r. ReadsLines (read_lines (table_at form head.now i).name (table_at form head.now i).row (table_at form head.now i).lines) bytes.now table.new r.now) (λ e. WrongFrom (read_lines (table_at form head.now i).name (table_at form head.now i).row (table_at form head.now i).lines) bytes.now e.from.now) }
{
    let mut name = [0u8; text::LONGEST_NAME];
    let size = names::name_of(i, &mut name);
    read_lines(
        bytes,
        table,
        &name[..size],
        row_of(head, i, form),
        lines_of(head, i),
    )
}

// The tables, in the order of their list.
fn read_tables<'t>(
    bytes: &'t [u8],
    form: Form,
    head: &[u16],
    tables: &mut [u16],
) -> Result<&'t [u8], WrongLine<'t>>
    requires sized { Sized head.now }
    requires whole { length tables.old ≡ table_words (tables_of form head.now) }
    ensures { MatchResult result (λ r. ReadsLines (read_tables (tables_of form head.now)) bytes.now tables.new r.now) (λ e. WrongFrom (read_tables (tables_of form head.now)) bytes.now e.from.now) }
{
    let mut left = bytes;
    let mut words: usize = 0;
    for i in 0..text::TABLES {
        let next = words + lines_of(head, i) * row_width(row_of(head, i, form));
        left = read_table(left, form, head, &mut tables[words..next], i)?;
        words = next;
    }
    Ok(left)
}

// What stands behind a right head, which has been read into a row of its own: the head's words stand at the front of the image, so its sizes
// stay while the tables are read behind them.
pub fn read_rest<'t>(
    rest: &'t [u8],
    form: Form,
    head: &[u16],
    img: &mut [u16],
) -> Result<(), WrongLine<'t>>
    requires sized { Sized head.now }
    requires nine { length head.now ≡ 9 }
    requires whole { length img.old ≡ needed head.now }
    ensures { MatchResult result (λ _. then_lines (read_tables (tables_of form head.now) head.now rest.now) ended ≡ all img.new []) (λ e. (then_lines (read_tables (tables_of form head.now) head.now rest.now) ended ≡ wrong_from e.from.now) × (length e.from.now ≤ length rest.now)) }
{
    img[..HEAD_WORDS].copy_from_slice(head);
    let left = read_tables(rest, form, head, &mut img[HEAD_WORDS..])?;
    ended(left)
}
