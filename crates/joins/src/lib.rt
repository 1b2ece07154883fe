// Sets of a row, joined: one step along the edges of a pack, from every state of a set at once.
#![tactic(auto)]

ghost use Rattle.std.specs.Prelude.{◌+◌, ◌<◌, slice_index};
ghost use Rattle.edges.specs.Rows.{Whole, joined, Made};

use edges::rows::NumberSet;

// The sets of the row, joined, whose own numbers are in a set.
fn join(row: &[NumberSet; 128], of: NumberSet) -> NumberSet
    ensures { Whole (joined row.now of) result }
{
    let mut all = NumberSet::EMPTY;
    let mut from = 0;
    while let Some(v) = of.next(from) {
        all = all | row[v];
        from = v + 1;
    }
    all
}

// Set i of the last row: the sets of the first row, joined, whose numbers are in set i of the second.
pub fn collect(row: &[NumberSet; 128], of: &[NumberSet; 128], to: &mut [NumberSet; 128], i: usize)
    requires { i < 128 }
    ensures { Made to.old i (joined row.now (slice_index of.now i)) to.new }
{
    to[i] = join(row, of[i]);
}

// The same as set i + 1 of the second row itself.
pub fn step(row: &[NumberSet; 128], of: &mut [NumberSet; 128], i: usize)
    requires { i < 127 }
    ensures { Made of.old (i + 1) (joined row.now (slice_index of.old i)) of.new }
{
    of[i + 1] = join(row, of[i]);
}
