// The parse states.
ghost use Rattle.std.specs.Prelude.{◌≡◌, ◌∷◌, [], ◌-◌, ◌<◌, ◌≤◌, length, drop, get_or};

use std::marker::Model;

// One row of 512 parse states by value, used from its end downwards, with its height beside it: the states, the top first, are its last
// part. There is always one.
#[derive(Drop)]
pub struct Stack {
    row: [u16; 512],
    height: usize,
}

impl Model for Stack {
    ghost use Rattle.std.specs.Prelude.{List, ℕ, drop, ◌-◌, ◌≤◌};

    ghost Value = { List ℕ };

    ghost view = { λ s. drop (512 - s.height) s.row };

    ghost invariant = { λ s. (1 ≤ s.height) × (s.height ≤ 512) };
}

impl Stack {
    // The stack begins with state 0.
    pub fn new() -> Self
        ensures { result ≡ 0 ∷ [] }
    {
        Stack {
            row: [0; 512],
            height: 1,
        }
    }

    // The stack of so many states, which are the last part of a row.
    pub fn of(row: [u16; 512], height: usize) -> Self
        requires { (1 ≤ height) × (height ≤ 512) }
        ensures { result ≡ drop (512 - height) row }
    {
        Stack { row, height }
    }

    // How many states there are.
    pub fn height(&self) -> usize
        ensures value { result ≡ length self.now }
        ensures bounds { (1 ≤ result) × (result ≤ 512) }
    {
        self.height
    }

    // The state on top.
    pub fn top(&self) -> u16
        ensures value { result ≡ get_or self.now 0 0 }
        ensures some { 1 ≤ length self.now }
    {
        self.row[numbers::MOST_STATES - self.height]
    }

    // The state so many below the top.
    pub fn below(&self, many: usize) -> u16
        requires { many < length self.now }
        ensures { result ≡ get_or self.now many 0 }
    {
        self.row[numbers::MOST_STATES - self.height + many]
    }

    // Drops so many states and pushes one in their place.
    pub fn replace(&mut self, many: usize, state: u16)
        requires some { many < length self.old }
        requires room { length self.old - many < 512 }
        ensures { self.new ≡ state ∷ drop many self.old }
    {
        let Stack { row, height } = self;
        *height = *height - many + 1;
        row[numbers::MOST_STATES - *height] = state;
    }
}
