// The shape of any words: good, or the place of the first wrong one.
#![tactic(auto)]

ghost use Rattle.std.specs.Prelude.{◌≡◌};
ghost use Rattle.numbers.specs.Verdicts.{verdict_of};
ghost use Rattle.pack.specs.Image.{size_words};
ghost use Rattle.pack.specs.Laid.{Laid};
ghost use Rattle.order.specs.Shape.{each, size_rule, parser_rules, scanner_rules, shape};

use numbers::WrongWord;

// The tables of the parser: layout, dom, prod, act and goto.
#[tactic(auto, using(order::proofs::Laws::then_wrong, order::proofs::Laws::then_good, order::proofs::Laws::dom_rows, order::proofs::Laws::act_rows), unfolding(order::specs::Shape::parser_rules))]
fn parser_rules(img: &[u16]) -> Result<(), WrongWord>
    requires { Laid img.now }
    ensures { verdict_of result ≡ parser_rules img.now }
{
    exact::layout_rule(img)?;
    exact::doms(img)?;
    exact::prods(img)?;
    exact::acts(img)?;
    exact::gotos(img)
}

// The tables of the scanner: class, move, scan and group.
#[tactic(auto, using(order::proofs::Laws::then_wrong, order::proofs::Laws::then_good, order::proofs::Laws::scan_rows), unfolding(order::specs::Shape::scanner_rules))]
fn scanner_rules(img: &[u16]) -> Result<(), WrongWord>
    requires { Laid img.now }
    ensures { verdict_of result ≡ scanner_rules img.now }
{
    exact::classes(img)?;
    exact::moves(img)?;
    exact::scans(img)?;
    exact::groups(img)
}

// The eight sizes of any words: all within their limits, or the place of the first that is not.
pub fn sizes(img: &[u16]) -> Result<(), WrongWord>
    ensures { verdict_of result ≡ each (size_rule img.now) size_words 1 }
{
    head::sizes(img)
}

// The shape of any words: good, or the place of the first wrong one.
#[tactic(auto, using(order::proofs::Laws::then_wrong, order::proofs::Laws::then_good), unfolding(order::specs::Shape::shape))]
pub fn shape(img: &[u16]) -> Result<(), WrongWord>
    ensures { verdict_of result ≡ shape img.now }
{
    head::head(img)?;
    parser_rules(img)?;
    scanner_rules(img)
}
