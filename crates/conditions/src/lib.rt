// What the check answers with, what it finds of one condition, and the search for the first place of one that is asked state by state.
// The conditions themselves are definitions: they stand in specs/, and the code that tests them is in crates of its own.
#![tactic(auto)]

ghost use Rattle.std.specs.Prelude.{◌≡◌, ◌<◌, ℕ, Bool};
ghost use Rattle.conditions.specs.Check.{finding_of, in_rows, is_fails};

// The answer: code 0 with zeros; code 4 with the word as its number; code 5 with the condition as its number, and its places.
#[derive(Clone, Copy, Debug, PartialEq, Eq)]
pub struct Checked {
    pub code: u8,
    pub number: usize,
    pub first: usize,
    pub second: usize,
}

// Why a pack does not pass: the first wrong word of its shape, or the first condition that fails, by its number, with its places.
#[derive(Clone, Copy, Debug, PartialEq, Eq)]
pub enum Failing {
    Word(usize),
    Condition {
        number: usize,
        first: usize,
        second: usize,
    },
}

impl From<Result<(), Failing>> for Checked {
    ghost use Rattle.conditions.specs.Failing.{numbers_of};

    ghost from_gives = { λ outcome checked. checked ≡ numbers_of outcome };

    fn from(outcome: Result<(), Failing>) -> Checked {
        match outcome {
            Ok(()) => Checked {
                code: numbers::DONE,
                number: 0,
                first: 0,
                second: 0,
            },
            Err(Failing::Word(place)) => Checked {
                code: numbers::WRONG_SHAPE,
                number: place,
                first: 0,
                second: 0,
            },
            Err(
                Failing::Condition {
                    number,
                    first,
                    second,
                },
            ) => Checked {
                code: numbers::CHECK_FAILS,
                number,
                first,
                second,
            },
        }
    }
}

// Whether a condition fails, by the places at which it does.
#[tactic(auto, unfolding(crate::specs::Check::finding_of, crate::specs::Check::is_fails))]
pub fn fails(places: Option<(usize, usize)>) -> bool
    ensures { result ≡ is_fails (finding_of places) }
{
    places.is_some()
}

// The first of so many states at which a test is false, as the places of a condition that has one.
pub fn first_wrong<F: Fn(usize) -> bool>(states: usize, test: F) -> Option<(usize, usize)>
    ghost right: { ℕ → Bool }
    requires may { (i : ℕ) → i < states → F.pre test i }
    requires computes { (i : ℕ) (r : Bool) → i < states → F.post test i r → r ≡ right i }
    ensures { finding_of result ≡ in_rows (λ i j. right i) 1 states 0 }
{
    for i in 0..states {
        if !test(i) {
            return Some((i, 0));
        }
    }
    None
}
