// One value of a list at a time, seen flat: the step with which every list of parameters is walked.
#![tactic(auto)]

ghost use Rattle.std.specs.Prelude.{◌≡◌, ℕ};
ghost use Rattle.token.specs.Token.{token_at};
ghost use Rattle.value.specs.Value.{Value};
ghost use Rattle.value.specs.Read.{ok, named_by, value_at};
ghost use Rattle.item.specs.Item.{item_of, step_at};
ghost use Rattle.item.specs.Face.{face_of};
ghost use Rattle.item.specs.Laws.{Step};

use token::Token;

// A value, seen flat. Places are those of the slice that it was read from.
#[derive(Clone, Copy)]
pub enum Slot {
    // stays a slot, and no None around one: each reader asks for its kind in one match, and absent is a kind
    Absent,
    Int(u64),
    Bytes { at: usize, len: usize },
    // the place of its first value
    List(usize),
    Named,
}

#[derive(Clone, Copy)]
pub enum Item {
    // the end of the list
    Shut(usize),
    // a value that no integer names
    Plain { slot: Slot, next: usize },
    // a value that an integer names
    Named { name: u64, slot: Slot, next: usize },
    Broken,
}

// A value by its first token, seen flat.
#[tactic(auto, unfolding(crate::specs::Face::face_of))]
fn flat(t: Token) -> Slot
    ensures { result ≡ face_of t }
{
    match t {
        Token::Int { value, .. } => Slot::Int(value),
        Token::Bytes { start, len, .. } => Slot::Bytes { at: start, len },
        Token::Control { code: 0xf0, next } => Slot::List(next),
        Token::Control { .. } => Slot::Named,
        Token::End | Token::Broken => Slot::Absent,
    }
}

// The named value whose name stands at at and that ends at end, if one stands there.
fn named(s: &[u8], at: usize, end: usize) -> Item
    ensures { (d : ℕ) (v : Value) → named_by (token_at s.now) (value_at s.now d) at ≡ ok v end → result ≡ item_of v end }
{
    match token::read(s, at) {
        Token::Int { value, next } => Item::Named {
            name: value,
            slot: flat(token::read(s, next)),
            next: end,
        },
        _ => Item::Plain {
            slot: Slot::Named,
            next: end,
        },
    }
}

// What stands at at in a list whose values nest to depth: its end, or its next value.
pub fn step(s: &[u8], at: usize, depth: usize) -> Item
    ensures { result ≡ step_at s.now depth at }
{
    let t = token::read(s, at);
    if let Some(end) = value::mark(t, 0xf1) {
        return Item::Shut(end);
    }
    let Some(next) = value::opened_in(s, t, depth) else {
        return Item::Broken;
    };
    match value::mark(t, 0xf2) {
        Some(name) => named(s, name, next),
        None => Item::Plain {
            slot: flat(t),
            next,
        },
    }
}

// A step finds the end of the list, or its first value in front of the others.
pub fn law_step()
    ensures { Step }
{}
