// What the tests of the shape share: one rule's answer, and the tables that have a quick pass over their rows. The definition of the shape, which is
// the order of its rules, is in specs/, and what it gives in proofs/.
#![tactic(auto)]

ghost use Rattle.std.specs.Prelude.{◌≡◌};
ghost use Rattle.numbers.specs.Verdicts.{verdict_of};
ghost use Rattle.order.specs.Shape.{rule};

use numbers::WrongWord;

// One rule: it holds, or this is the place of the wrong word.
#[tactic(auto, unfolding(crate::specs::Shape::rule))]
pub fn rule(holds: bool, place: usize) -> Result<(), WrongWord>
    ensures { verdict_of result ≡ rule holds place }
{
    if holds { Ok(()) } else { Err(WrongWord(place)) }
}

// The tables that are walked row by row where a quick pass says no.
#[derive(Clone, Copy)]
pub enum Ruled {
    Dom,
    Act,
    Scan,
}
