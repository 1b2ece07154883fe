// The list of tables, for the reader and the writer: what stands on each line of a table, how many there are, and how many words a line has.
#![tactic(auto)]

ghost use Rattle.std.specs.Prelude.{◌≡◌, ◌<◌, ◌≤◌, length};
ghost use Rattle.pack.specs.Image.{largest_image};
ghost use Rattle.text.specs.Form.{after, cells_in, row_width, table_at};
ghost use Rattle.text.specs.declared.Form.{Form};

use pack::image;
use text::{COMMA, Form, Row};

// The byte after a field: a comma, or after the last one what ends the row.
#[tactic(auto, unfolding(text::specs::Form::after))]
pub fn after(more: usize, end: u8) -> u8
    ensures { result ≡ after more end }
{
    if more == 0 {
        return end;
    }
    COMMA
}

// A row of so many cells, as they stand in a line of this form.
#[tactic(auto, unfolding(text::specs::Form::cells_in))]
fn cells_in(form: Form, n: usize) -> Row
    ensures { result ≡ cells_in form n }
{
    match form {
        Form::One => Row::Numbers(n),
        Form::Two => Row::Cells(n),
    }
}

// What stands on each line of table i.
#[tactic(auto, using(text::proofs::Tables::last_place), unfolding(text::specs::Form::tables_of))]
pub fn row_of(img: &[u16], i: usize, form: Form) -> Row
    requires { (9 ≤ length img.now) × (i < 9) }
    ensures { result ≡ (table_at form img.now i).row }
{
    match i {
        0 => Row::Sets(1),
        1 => Row::Sets(1),
        2 => Row::Production,
        3 => cells_in(form, image::terminals(img)),
        4 => cells_in(form, image::nonterminals(img)),
        5 => Row::Numbers(3),
        6 => cells_in(form, image::classes(img)),
        7 => Row::Sets(3),
        _ => Row::Group,
    }
}

// How many lines table i has.
#[tactic(auto, using(text::proofs::Tables::last_place), unfolding(text::specs::Form::tables_of))]
pub fn lines_of(img: &[u16], i: usize) -> usize
    requires { (9 ≤ length img.now) × (i < 9) }
    ensures { (form : Form) → result ≡ (table_at form img.now i).lines }
{
    match i {
        0 => 1,
        1 => image::terminals(img),
        2 => image::productions(img),
        3 => image::states(img),
        4 => image::states(img),
        5 => image::ranges(img),
        6 => image::scan_states(img),
        7 => image::scan_states(img),
        _ => image::groups(img),
    }
}

// The words of a row.
#[tactic(auto, unfolding(text::specs::Form::row_width))]
pub fn row_width(row: Row) -> usize
    requires { row_width row ≤ largest_image }
    ensures { result ≡ row_width row }
{
    match row {
        Row::Numbers(n) => n,
        Row::Cells(n) => n,
        Row::Sets(n) => n * image::SET_WORDS,
        Row::Production => image::PRODUCTION_WORDS,
        Row::Group => image::GROUP_WORDS,
    }
}
