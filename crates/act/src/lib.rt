// What a cell of the action table asks for.
#![tactic(auto)]

ghost use Rattle.std.specs.Prelude.{◌≡◌, ◌+◌, ◌-◌, ◌*◌, ◌<◌, ◌≤◌, length, get_or};
ghost use Rattle.numbers.specs.Verdicts.{Good};
ghost use Rattle.pack.specs.Image.{terminals, productions, states, act, action_of};
ghost use Rattle.pack.specs.Laid.{Laid};
ghost use Rattle.shape.specs.Shape.{shape};
ghost use Rattle.records.specs.Inner.{Stacked, Kept, standing, bounded, told};
ghost use Rattle.records.specs.Parse.{shift_to, reduce_by, perform};

use look::{ParseError, Token};
use pack::{Action, image};
use records::{Parser, Turned, narrow};

// Shift: write a leaf, push.
fn shift(
    img: &[u16],
    parser: &mut Parser,
    tree: &mut [u16],
    s: usize,
    token: Token,
) -> Result<Turned, ParseError>
    requires laid { Laid img.now }
    requires stacked { Stacked (states img.now) parser.old.stack }
    requires tree_room { parser.old.room * 4 ≤ length tree.old }
    requires s_bound { (s < states img.now) × (token.terminal < terminals img.now) }
    requires length_bound { parser.old.at.place + token.length ≤ 65535 }
    ensures result_after { told result (standing parser.new tree.new) ≡ bounded (parser.old.room - parser.old.records) (shift_to s token.length token.terminal (standing parser.old tree.old)) }
    ensures stacked { Stacked (states img.now) parser.new.stack }
    ensures kept { Kept parser.old tree.old token.length parser.new tree.new result }
{
    let leaf = [
        narrow(token.terminal),
        narrow(parser.at.place),
        narrow(token.length),
        parser.stack.top(),
    ];
    parser.go_on(tree, leaf, 0, narrow(s), token.length)
}

// Reduce by p: drop len states, find goto of the uncovered state on lhs, write a node, push.
fn reduce(
    img: &[u16],
    parser: &mut Parser,
    tree: &mut [u16],
    p: usize,
) -> Result<Turned, ParseError>
    requires laid { Laid img.now }
    requires good_shape { shape img.now ≡ Good }
    requires stacked { Stacked (states img.now) parser.old.stack }
    requires tree_room { parser.old.room * 4 ≤ length tree.old }
    requires p_bound { p < productions img.now }
    ensures result_after { told result (standing parser.new tree.new) ≡ bounded (parser.old.room - parser.old.records) (reduce_by img.now p (standing parser.old tree.old)) }
    ensures stacked { Stacked (states img.now) parser.new.stack }
    ensures kept { Kept parser.old tree.old 0 parser.new tree.new result }
{
    let len = image::len(img, p);
    if parser.stack.height() <= len {
        return Err(ParseError::Stuck);
    }
    let uncovered = parser.stack.below(len);
    let lhs = image::lhs(img, p);
    let to = image::goto(img, usize::from(uncovered), lhs);
    if to == 0 {
        return Err(ParseError::Stuck);
    }
    let node = [
        narrow(image::FIRST_NONTERMINAL + lhs),
        narrow(p),
        narrow(len),
        uncovered,
    ];
    parser.go_on(tree, node, len, narrow(to - 1), 0)
}

// Accept, where the stack holds exactly two states.
fn accept(parser: &Parser) -> Result<Turned, ParseError>
    ensures { (length parser.now.stack ≡ 2 → result ≡ Ok Turned.Accepted) × ((length parser.now.stack ≡ 2 → ⊥) → result ≡ Err ParseError.Stuck) }
{
    if parser.stack.height() == 2 {
        Ok(Turned::Accepted)
    } else {
        Err(ParseError::Stuck)
    }
}

// What the cell of the state on top says for the token.
pub fn perform(
    img: &[u16],
    parser: &mut Parser,
    tree: &mut [u16],
    token: Token,
) -> Result<Turned, ParseError>
    requires laid { Laid img.now }
    requires good_shape { shape img.now ≡ Good }
    requires stacked { Stacked (states img.now) parser.old.stack }
    requires tree_room { parser.old.room * 4 ≤ length tree.old }
    requires terminal_bound { token.terminal < terminals img.now }
    requires length_bound { parser.old.at.place + token.length ≤ 65535 }
    ensures result_after { told result (standing parser.new tree.new) ≡ bounded (parser.old.room - parser.old.records) (perform img.now (action_of (act img.now (get_or parser.old.stack 0 0) token.terminal)) token.length token.terminal (standing parser.old tree.old)) }
    ensures stacked { Stacked (states img.now) parser.new.stack }
    ensures kept { Kept parser.old tree.old token.length parser.new tree.new result }
{
    let top = usize::from(parser.stack.top());
    match pack::action_of(image::act(img, top, token.terminal)) {
        Action::Error => Err(ParseError::Unexpected {
            length: token.length,
            terminal: token.terminal,
        }),
        Action::Accept => accept(parser),
        Action::Shift(s) => shift(img, parser, tree, s, token),
        Action::Reduce(p) => reduce(img, parser, tree, p),
    }
}
