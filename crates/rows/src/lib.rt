// Reading a line of a text, part by part: what stands at the front of the bytes that are left becomes the words of a row. A right part of a
// line gives the bytes behind it.
#![tactic(auto)]

ghost use Rattle.std.specs.Prelude.{◌≡◌, [], ◌+◌, ◌*◌, ◌<◌, ◌≤◌, MatchOption, length, take};
ghost use Rattle.pack.specs.Image.{group_words, largest_image, most_symbols, production_words};
ghost use Rattle.text.specs.declared.Kind.{Kind};
ghost use Rattle.text.specs.Fields.{width_of};
ghost use Rattle.text.specs.Form.{row_width};
ghost use Rattle.text.specs.Reader.{then_read, expect, field_then, read_fields, read_symbols, read_row};
ghost use Rattle.fields.specs.Steps.{IsWrong, Reads};
ghost use Rattle.rows.specs.Steps.{Puts};

use cells::{pad, read_cells};
use fields::{one_digit, read_number, stands};
use hexset::{read_set, set_words};
use pack::image::{MOST_SYMBOLS, SET_WORDS};
use rowkinds::after;
use text::{COMMA, GREATEST_WORD, Kind, NEWLINE, Row};

// A name that must stand next.
pub fn expect<'t>(bytes: &'t [u8], name: &[u8]) -> Option<&'t [u8]>
    ensures { MatchOption result (IsWrong (expect name.now) bytes.now) (λ r. Reads (expect name.now) bytes.now [] r.now) }
{
    if bytes.starts_with(name) {
        Some(&bytes[name.len()..])
    } else {
        None
    }
}

// How the fields of a row are read, each into its words.
trait FieldForm {
    ghost kind: { Kind };

    // Field i of a row and the byte after it, which is no digit.
    fn read_field<'t>(bytes: &'t [u8], next: u8, row: &mut [u16], i: usize) -> Option<&'t [u8]>
        requires room { (i + 1) * width_of kind ≤ length row.old }
        requires no_digit { next < 48 }
        ensures { MatchOption result (IsWrong (field_then kind next) bytes.now) (λ r. Puts (field_then kind next) bytes.now (take (i * width_of kind) row.old) (take ((i + 1) * width_of kind) row.new) r.now) };
}

// Numbers, of one word each. Most have one digit.
struct Numbers;

impl FieldForm for Numbers {
    ghost kind = { Kind.Number };

    fn read_field<'t>(bytes: &'t [u8], next: u8, row: &mut [u16], i: usize) -> Option<&'t [u8]> {
        if let Some((digit, rest)) = one_digit(bytes, next) {
            row[i] = digit;
            return Some(rest);
        }
        let (number, rest) = read_number(bytes, GREATEST_WORD)?;
        let rest = stands(rest, next)?;
        row[i] = number as u16;
        Some(rest)
    }
}

// Sets, of four words each.
struct Sets;

impl FieldForm for Sets {
    ghost kind = { Kind.Set };

    fn read_field<'t>(bytes: &'t [u8], next: u8, row: &mut [u16], i: usize) -> Option<&'t [u8]> {
        let (set, rest) = read_set(bytes)?;
        let rest = stands(rest, next)?;
        set_words(row, i * SET_WORDS, set);
        Some(rest)
    }
}

// The n fields of a row, split by commas, the last followed by `end`, which is no digit.
fn read_fields<'t, F: FieldForm>(
    bytes: &'t [u8],
    row: &mut [u16],
    n: usize,
    end: u8,
) -> Option<&'t [u8]>
    requires whole { length row.old ≡ n * width_of F.kind }
    requires no_digit { end < 48 }
    ensures { MatchOption result (IsWrong (read_fields F.kind n end) bytes.now) (λ r. Reads (read_fields F.kind n end) bytes.now row.new r.now) }
{
    let mut left = bytes;
    for i in 0..n {
        left = F::read_field(left, after(n - (i + 1), end), row, i)?;
    }
    Some(left)
}

// The len of a production and its symbols, as 15 words, 0 for each that it does not use.
fn read_symbols<'t>(bytes: &'t [u8], row: &mut [u16]) -> Option<&'t [u8]>
    requires { length row.old ≡ 1 + most_symbols }
    ensures { MatchOption result (IsWrong read_symbols bytes.now) (λ r. Reads read_symbols bytes.now row.new r.now) }
{
    let (number, rest) = read_number(bytes, GREATEST_WORD)?;
    let len = number as usize;
    if MOST_SYMBOLS < len {
        return None;
    }
    let rest = stands(rest, after(len, NEWLINE))?;
    row[0] = len as u16;
    let rest = read_fields::<Numbers>(rest, &mut row[1..1 + len], len, NEWLINE)?;
    pad(row, 1 + len, MOST_SYMBOLS - len);
    Some(rest)
}

// A production: its left side, its len and its symbols.
fn read_production<'t>(bytes: &'t [u8], row: &mut [u16]) -> Option<&'t [u8]>
    requires { length row.old ≡ production_words }
    ensures { MatchOption result (IsWrong (read_row Row.Production) bytes.now) (λ r. Reads (read_row Row.Production) bytes.now row.new r.now) }
{
    let rest = Numbers::read_field(bytes, COMMA, row, 0)?;
    read_symbols(rest, &mut row[1..])
}

// A group: its set and the chosen terminal.
fn read_group<'t>(bytes: &'t [u8], row: &mut [u16]) -> Option<&'t [u8]>
    requires { length row.old ≡ group_words }
    ensures { MatchOption result (IsWrong (read_row Row.Group) bytes.now) (λ r. Reads (read_row Row.Group) bytes.now row.new r.now) }
{
    let rest = Sets::read_field(bytes, COMMA, row, 0)?;
    Numbers::read_field(rest, NEWLINE, row, SET_WORDS)
}

// What stands behind the `=` of a line.
fn read_row<'t>(bytes: &'t [u8], row: &mut [u16], kind: Row) -> Option<&'t [u8]>
    requires whole { length row.old ≡ row_width kind }
    requires in_bounds { row_width kind ≤ largest_image }
    ensures { MatchOption result (IsWrong (read_row kind) bytes.now) (λ r. Reads (read_row kind) bytes.now row.new r.now) }
{
    match kind {
        Row::Numbers(n) => read_fields::<Numbers>(bytes, row, n, NEWLINE),
        Row::Cells(_) => read_cells(bytes, row),
        Row::Sets(n) => read_fields::<Sets>(bytes, row, n, NEWLINE),
        Row::Production => read_production(bytes, row),
        Row::Group => read_group(bytes, row),
    }
}

// One line of a table: its words become those of the row.
pub fn read_line<'t>(bytes: &'t [u8], row: &mut [u16], name: &[u8], kind: Row) -> Option<&'t [u8]>
    requires whole { length row.old ≡ row_width kind }
    requires in_bounds { row_width kind ≤ largest_image }
    ensures { MatchOption result (IsWrong (λ w b. then_read (expect name.now w b) (read_row kind)) bytes.now) (λ r. Reads (λ w b. then_read (expect name.now w b) (read_row kind)) bytes.now row.new r.now) }
{
    let rest = expect(bytes, name)?;
    read_row(rest, row, kind)
}
