// The names that the lines of the tables begin with.
#![tactic(auto)]

ghost use Rattle.std.specs.Prelude.{◌≡◌, List, ℕ, ◌<◌, ◌≤◌, length, take};
ghost use Rattle.text.specs.Form.{table_at};
ghost use Rattle.text.specs.declared.Form.{Form};

// Puts a name at the front of a row, and gives its length.
fn put_name(row: &mut [u8], name: &[u8]) -> usize
    requires { length name.now ≤ length row.old }
    ensures { (result ≡ length name.now) × (take result row.new ≡ name.now) }
{
    for i in 0..name.len() {
        row[i] = name[i];
    }
    name.len()
}

// What the lines of table i begin with: it is put at the front of a row, and its length is given.
#[tactic(auto, using(text::proofs::Tables::last_place), unfolding(text::specs::Form::tables_of))]
pub fn name_of(i: usize, row: &mut [u8]) -> usize
    requires { (i < 9) × (7 ≤ length row.old) }
    ensures { (result ≤ 7) × ((form : Form) (img : List ℕ) → take result row.new ≡ (table_at form img i).name) }
{
    match i {
        0 => put_name(row, b"layout="),
        1 => put_name(row, b"dom="),
        2 => put_name(row, b"prod="),
        3 => put_name(row, b"act="),
        4 => put_name(row, b"goto="),
        5 => put_name(row, b"class="),
        6 => put_name(row, b"move="),
        7 => put_name(row, b"scan="),
        _ => put_name(row, b"group="),
    }
}
