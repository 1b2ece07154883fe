// Writing the rows, the lines and the tables of an image, as the fields are written.
#![tactic(auto)]

ghost use Rattle.std.specs.Prelude.{◌≡◌, ◌++◌, ◌+◌, ◌*◌, ◌<◌, ◌≤◌, length};
ghost use Rattle.pack.specs.Image.{layout_at, largest_image};
ghost use Rattle.pack.specs.Laid.{Sized};
ghost use Rattle.text.specs.Form.{pack_line, row_width, table_at, tables_of};
ghost use Rattle.text.specs.Writer.{row_text, lines_text, tables_text, text_of};
ghost use Rattle.putlines.specs.Steps.{table_text};

use pack::image::SET_WORDS;
use putcells::write_cells;
use putfields::{Sink, word, write_fields, write_name};
use text::{COMMA, Form, Kind, NEWLINE, Row};

// What stands behind the `=` of a line.
#[tactic(auto, unfolding(text::specs::Form::row_width, text::specs::Writer::row_text))]
fn write_row<S: Sink>(out: &mut [u8], at: usize, img: &[u16], i: usize, row: Row) -> usize
    requires { (i + row_width row ≤ largest_image) × (length (row_text row img.now i) ≤ S.room out.old at) }
    ensures taken { S.takes out.old at (row_text row img.now i) out.new result }
    ensures room { S.room out.new result + length (row_text row img.now i) ≡ S.room out.old at }
{
    match row {
        Row::Numbers(n) => write_fields::<S>(out, at, img, i, Kind::Number, n, NEWLINE),
        Row::Cells(n) => write_cells::<S>(out, at, img, i, n),
        Row::Sets(n) => write_fields::<S>(out, at, img, i, Kind::Set, n, NEWLINE),
        Row::Production => write_fields::<S>(
            out,
            at,
            img,
            i,
            Kind::Number,
            2 + word(img, i + 1),
            NEWLINE,
        ),
        Row::Group => {
            let to = write_fields::<S>(out, at, img, i, Kind::Set, 1, COMMA);
            write_fields::<S>(out, to, img, i + SET_WORDS, Kind::Number, 1, NEWLINE)
        }
    }
}

// One line of a table.
fn write_line<S: Sink>(
    out: &mut [u8],
    at: usize,
    img: &[u16],
    i: usize,
    name: &[u8],
    row: Row,
) -> usize
    requires { (length name.now ≤ 7) × ((i + row_width row ≤ largest_image) × (length (name.now ++ row_text row img.now i) ≤ S.room out.old at)) }
    ensures taken { S.takes out.old at (name.now ++ row_text row img.now i) out.new result }
    ensures room { S.room out.new result + length (name.now ++ row_text row img.now i) ≡ S.room out.old at }
{
    let to = write_name::<S>(out, at, name);
    write_row::<S>(out, to, img, i, row)
}

// So many lines of a table.
pub fn write_lines<S: Sink>(
    out: &mut [u8],
    at: usize,
    img: &[u16],
    i: usize,
    name: &[u8],
    row: Row,
    n: usize,
) -> usize
    requires { (length name.now ≤ 7) × ((i + n * row_width row ≤ largest_image) × (length (lines_text name.now row n img.now i) ≤ S.room out.old at)) }
    ensures taken { S.takes out.old at (lines_text name.now row n img.now i) out.new result }
    ensures room { S.room out.new result + length (lines_text name.now row n img.now i) ≡ S.room out.old at }
{
    let mut to = at;
    let mut from = i;
    for _left in (0..n).rev() {
        to = write_line::<S>(out, to, img, from, name, row);
        from += rowkinds::row_width(row);
    }
    to
}

// Table i, whose words stand from a place of the image on.
fn write_table<S: Sink>(
    out: &mut [u8],
    at: usize,
    img: &[u16],
    from: usize,
    i: usize,
    form: Form,
) -> usize
    requires { (Sized img.now) × ((i < 9) × ((from + (table_at form img.now i).lines * row_width (table_at form img.now i).row ≤ largest_image) × (length (table_text form img.now i from) ≤ S.room out.old at))) }
    ensures taken { S.takes out.old at (table_text form img.now i from) out.new result }
    ensures room { S.room out.new result + length (table_text form img.now i from) ≡ S.room out.old at }
{
    let mut name = [0u8; text::LONGEST_NAME];
    let size = names::name_of(i, &mut name);
    write_lines::<S>(
        out,
        at,
        img,
        from,
        &name[..size],
        rowkinds::row_of(img, i, form),
        rowkinds::lines_of(img, i),
    )
}

// The words of table i.
pub fn table_words(img: &[u16], i: usize, form: Form) -> usize
    requires { (Sized img.now) × ((i < 9) × ((table_at form img.now i).lines * row_width (table_at form img.now i).row ≤ largest_image)) }
    ensures { result ≡ (table_at form img.now i).lines * row_width (table_at form img.now i).row }
{
    rowkinds::lines_of(img, i) * rowkinds::row_width(rowkinds::row_of(img, i, form))
}

// The tables, in the order of their list.
pub fn write_tables<S: Sink>(out: &mut [u8], at: usize, img: &[u16], form: Form) -> usize
    requires { (Sized img.now) × (length (tables_text (tables_of form img.now) img.now layout_at) ≤ S.room out.old at) }
    ensures taken { S.takes out.old at (tables_text (tables_of form img.now) img.now layout_at) out.new result }
    ensures room { S.room out.new result + length (tables_text (tables_of form img.now) img.now layout_at) ≡ S.room out.old at }
{
    let mut to = at;
    let mut from: usize = pack::image::HEAD_WORDS;
    for i in 0..text::TABLES {
        to = write_table::<S>(out, to, img, from, i, form);
        from += table_words(img, i, form);
    }
    to
}

// The first line of a form.
#[tactic(auto, unfolding(text::specs::Form::pack_line))]
fn write_first<S: Sink>(out: &mut [u8], at: usize, form: Form) -> usize
    requires { length (pack_line form) ≤ S.room out.old at }
    ensures taken { S.takes out.old at (pack_line form) out.new result }
    ensures room { S.room out.new result + length (pack_line form) ≡ S.room out.old at }
{
    match form {
        Form::One => write_name::<S>(out, at, b"pack=1\n"),
        Form::Two => write_name::<S>(out, at, b"pack=2\n"),
    }
}

// The text of an image.
pub fn write_text<S: Sink>(out: &mut [u8], at: usize, img: &[u16], form: Form) -> usize
    requires { (Sized img.now) × (length (text_of form img.now) ≤ S.room out.old at) }
    ensures taken { S.takes out.old at (text_of form img.now) out.new result }
    ensures room { S.room out.new result + length (text_of form img.now) ≡ S.room out.old at }
{
    let a = write_first::<S>(out, at, form);
    let b = write_lines::<S>(out, a, img, 1, b"size=", Row::Numbers(8), 1);
    write_tables::<S>(out, b, img, form)
}
