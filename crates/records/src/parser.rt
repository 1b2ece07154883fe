// Where the parse stands, and the step that goes on.
ghost use Rattle.std.specs.Prelude.{◌≡◌, ◌+◌, ◌-◌, ◌*◌, ◌<◌, ◌≤◌, ◌∷◌, ℕ, length, drop};

use super::stack::Stack;
use super::{RECORD_WORDS, Turned, full, put};
use look::{ParseError, Spot};

// Where the parse stands: its states, the records written of those that there is room for, and the spot in the text. The tree is lent
// beside it.
#[derive(Drop)]
pub struct Parser {
    pub stack: Stack,
    pub room: usize,
    pub records: usize,
    pub at: Spot,
    ghost most: { room ≤ 65535 },
    ghost within: { records ≤ room },
    ghost short: { at.place ≤ 65535 },
}

impl Parser {
    ghost use Rattle.records.specs.Inner.{Stacked, Kept, standing, bounded, told};
    ghost use Rattle.records.specs.Parse.{goes, wrote};
    ghost use Rattle.look.specs.Look.{past};

    // Writes a record behind the others, drops so many states, pushes one in their place and goes on past so many bytes, where there is room
    // for the record and the state. Otherwise nothing changes.
    pub fn go_on(
        &mut self,
        tree: &mut [u16],
        words: [u16; 4],
        dropped: usize,
        state: u16,
        size: usize,
    ) -> Result<Turned, ParseError>
        requires tree_room { self.old.room * 4 ≤ length tree.old }
        requires dropped_bound { dropped < length self.old.stack }
        requires size_bound { self.old.at.place + size ≤ 65535 }
        ensures result_after { told result (standing self.new tree.new) ≡ bounded (self.old.room - self.old.records) (goes (standing self.old tree.old) (wrote words (state ∷ drop dropped self.old.stack) (past size self.old.at) (standing self.old tree.old))) }
        ensures stacked { (n : ℕ) → Stacked n self.old.stack → state < n → Stacked n self.new.stack }
        ensures kept { Kept self.old tree.old size self.new tree.new result }
    {
        full(self.room, self.records, self.stack.height() - dropped)?;
        put(tree, self.records * RECORD_WORDS, words);
        self.stack.replace(dropped, state);
        self.records += 1;
        self.at.place += size;
        Ok(Turned::Went)
    }
}
