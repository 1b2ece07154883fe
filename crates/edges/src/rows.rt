// Sets of numbers below 128, rows of 128 of them, and the next terminal of a set of 64 bits. A contract sees a set as the number whose bit n
// says whether n is in it.
ghost use Rattle.std.specs.Prelude.{◌≡◌, ℕ, ◌+◌, ◌<◌, ◌≤◌, eqb, bit_or, MatchOption};
ghost use Rattle.sets.specs.Sets.{member};
ghost use Rattle.edges.specs.Rows.{cell_of, either, Put, Whole, all_in, only_in, Next};

use std::marker::Model;
use std::ops::BitOr;

// A set of numbers below 128.
#[derive(Clone, Copy, Debug, PartialEq, Eq)]
pub struct NumberSet {
    bits: u128,
}

impl Model for NumberSet {
    ghost use Rattle.std.specs.Prelude.{ℕ, ◌<◌, ◌^◌};

    ghost Value = { ℕ };

    ghost view = { λ s. s.bits };

    ghost invariant = { λ s. s.bits < 2 ^ 128 };

    ghost inverse = { λ n. record { bits = n } };
}

impl BitOr for NumberSet {
    type Output = Self;

    ghost bitor_gives = { λ a b r. r ≡ bit_or a b };

    #[tactic(auto, using(crate::proofs::RowLaws::union_fits))]
    fn bitor(self, other: Self) -> Self {
        NumberSet {
            bits: self.bits | other.bits,
        }
    }
}

impl NumberSet {
    pub const EMPTY: NumberSet = NumberSet { bits: 0 };

    // The set of one number below 64. It is made in its half of the bits, and `next` looks in one half at a time: shifts of all 128 bits are
    // slower.
    pub(crate) fn of_low(n: usize) -> Self
        requires { n < 64 }
        ensures { Whole (λ y. eqb y n) result }
    {
        NumberSet {
            bits: u128::from(1u64 << n),
        }
    }

    // The set of 64 + n alone.
    pub(crate) fn of_high(n: usize) -> Self
        requires { n < 64 }
        ensures { Whole (λ y. eqb y (64 + n)) result }
    {
        NumberSet {
            bits: u128::from(1u64 << n) << 64,
        }
    }

    // The set of one number; a number of 128 or more is in none.
    pub fn of(n: usize) -> Self
        ensures { Whole (λ y. eqb y n) result }
    {
        if n < 64 {
            return NumberSet::of_low(n);
        }
        if n < 128 {
            return NumberSet::of_high(n - 64);
        }
        NumberSet::EMPTY
    }

    // The numbers of the set below 64.
    fn low(self) -> u64
        ensures { (t : ℕ) → t < 64 → member result t ≡ member self t }
    {
        (self.bits % (1 << 64)) as u64
    }

    // The numbers of the set from 64 on, less 64.
    fn high(self) -> u64
        ensures { (t : ℕ) → t < 64 → member result t ≡ member self (64 + t) }
    {
        (self.bits >> 64) as u64
    }

    // Whether a number is in the set.
    #[tactic(auto, using(crate::proofs::RowLaws::member_bit))]
    pub fn contains(self, n: usize) -> bool
        requires { n < 128 }
        ensures { result ≡ member self n }
    {
        (self.bits >> n) % 2 == 1
    }

    // Whether every number of the set is in the other.
    #[tactic(auto, using(crate::proofs::RowLaws::inside_is))]
    pub fn is_subset(self, other: Self) -> bool
        ensures { result ≡ all_in self (member other) }
    {
        self.bits & other.bits == self.bits
    }

    // Whether every number of the set is n.
    #[tactic(auto, using(crate::proofs::RowLaws::all_same))]
    pub fn has_only(self, n: usize) -> bool
        ensures { result ≡ only_in self n }
    {
        self.is_subset(NumberSet::of(n))
    }

    // The set with a number besides, where there is one.
    #[tactic(auto, using(crate::proofs::RowLaws::with_none, crate::proofs::RowLaws::with_one), unfolding(crate::specs::Rows::cell_of))]
    pub fn with(self, number: Option<usize>) -> Self
        ensures { Whole (λ y. either (member self y) (eqb (cell_of number) (1 + y))) result }
    {
        match number {
            Some(n) => self | NumberSet::of(n),
            None => self,
        }
    }

    // The least number of the set that is 64 + `from` or more.
    fn next_high(self, from: usize) -> Option<usize>
        requires { from ≤ 64 }
        ensures { MatchOption result (Next (member self) 128 (64 + from) 128) (λ n. (n < 128) × Next (member self) 128 (64 + from) n) }
    {
        match next_in(self.high(), from) {
            Some(n) => Some(64 + n),
            None => None,
        }
    }

    // The least number of the set that is `from` or more.
    pub fn next(self, from: usize) -> Option<usize>
        requires { from ≤ 128 }
        ensures { MatchOption result (Next (member self) 128 from 128) (λ n. (n < 128) × Next (member self) 128 from n) }
    {
        if 64 <= from {
            return self.next_high(from - 64);
        }
        match next_in(self.low(), from) {
            Some(n) => Some(n),
            None => self.next_high(0),
        }
    }
}

// The least terminal of a set that is `from` or more.
#[tactic(auto, using(crate::proofs::RowLaws::next_there64, crate::proofs::RowLaws::next_none64, crate::proofs::RowLaws::next_past))]
pub fn next_in(terminals: u64, from: usize) -> Option<usize>
    requires { from ≤ 64 }
    ensures { MatchOption result (Next (member terminals) 64 from 64) (λ t. (t < 64) × Next (member terminals) 64 from t) }
{
    if from == 64 {
        return None;
    }
    let rest = terminals >> from;
    if rest == 0 {
        return None;
    }
    Some(from + rest.trailing_zeros() as usize)
}

// Puts the one number of `one` into set `to` of the row, where one is given.
#[tactic(auto, using(crate::proofs::RowLaws::put_none, crate::proofs::RowLaws::put_one), unfolding(crate::specs::Rows::cell_of))]
pub(crate) fn put_one(row: &mut [NumberSet; 128], to: Option<usize>, one: NumberSet)
    requires { cell_of to ≤ 128 }
    ensures { (b : ℕ) → Whole (λ y. eqb y b) one → Put row.old (cell_of to) b row.new }
{
    if let Some(v) = to {
        row[v] = row[v] | one;
    }
}

// Puts b into a set of the row, where one is given.
pub fn put(row: &mut [NumberSet; 128], to: Option<usize>, b: usize)
    requires { cell_of to ≤ 128 }
    ensures { Put row.old (cell_of to) b row.new }
{
    put_one(row, to, NumberSet::of(b));
}
