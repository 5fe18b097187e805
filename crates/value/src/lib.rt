// Values: where an atom, a list or a named value ends, nested to a given depth, in bytes or on a tape of nodes.
#![tactic(auto)]

ghost use Rattle.std.specs.Prelude.{◌≡◌, ℕ, ◌/◌, length};
ghost use Rattle.token.specs.declared.Token.{Token};
ghost use Rattle.token.specs.Token.{token_at};
ghost use Rattle.value.specs.Read.{end_of, mark_of, atom_is, value_by, opened_by, value_at, opened_in, values_at};
ghost use Rattle.value.specs.Source.{part_of, shape_of, node_at, values_from};
ghost use Rattle.value.specs.Ahead.{Any, Has};
ghost use Rattle.value.specs.Tokens.{token-ahead};
ghost use Rattle.value.specs.Nodes.{node-held};
ghost use Rattle.value.specs.Laws.{ListStep, Inside, Skipped};

use token::Token;

// Where tokens stand, each at its place. A token ends further on, and within the size.
pub trait Source: Copy {
    ghost token_in: { Self → ℕ → Token };

    ghost size: { Self → ℕ };

    // The token at at.
    fn token(self, at: usize) -> Token
        ensures { result ≡ token_in self at };

    ghost ahead: { (s : Self) (p : ℕ) → Has Any p (size s) (token_in s p) };
}

impl Source for &[u8] {
    ghost token_in = { λ s. token_at s.now };

    ghost size = { λ s. length s.now };

    ghost ahead = { λ s p. token-ahead s.now p };

    fn token(self, at: usize) -> Token {
        token::read(self, at)
    }
}

// A tape of nodes, and the bytes that its byte strings stand in.
#[derive(Clone, Copy)]
pub struct Tape<'a> {
    pub nodes: &'a [u64],
    pub bytes: &'a [u8],
}

impl Source for Tape<'_> {
    ghost token_in = { λ s. node_at s.nodes.now (length s.bytes.now) };

    ghost size = { λ s. length s.nodes.now / 3 };

    ghost ahead = { λ s p. node-held s.nodes.now (length s.bytes.now) p };

    fn token(self, at: usize) -> Token {
        node(self.nodes, self.bytes.len(), at)
    }
}

// count bytes from p on, of the m that are lent, before the node q.
#[tactic(auto, unfolding(crate::specs::Source::part_of))]
fn part(m: usize, q: usize, p: u64, count: u64) -> Token
    ensures { result ≡ part_of m q p count }
{
    let start = p as usize;
    let len = count as usize;
    if len < 16777216 && start <= m && len <= m - start {
        Token::Bytes {
            start,
            len,
            next: q,
        }
    } else {
        Token::Broken
    }
}

// The token that the words k, a and b of a node say, before the node q.
#[tactic(auto, unfolding(crate::specs::Source::shape_of, token::specs::Bytes::within))]
fn shape(m: usize, q: usize, k: u64, a: u64, b: u64) -> Token
    ensures { result ≡ shape_of m q k a b }
{
    match k {
        1 => Token::Int { value: a, next: q },
        2 => part(m, q, a, b),
        0xf0..=0xf3 => Token::Control {
            code: k as u8,
            next: q,
        },
        _ => Token::Broken,
    }
}

// The node with the index i, with m bytes lent.
#[tactic(auto, unfolding(crate::specs::Source::node_at))]
pub fn node(tape: &[u64], m: usize, i: usize) -> Token
    ensures { result ≡ node_at tape.now m i }
{
    if i < tape.len() / 3 {
        return shape(m, i + 1, tape[i * 3], tape[i * 3 + 1], tape[i * 3 + 2]);
    }
    Token::End
}

// The end of a token, if it is the control token `code`.
#[tactic(auto, unfolding(crate::specs::Read::end_of, crate::specs::Read::mark_of))]
pub fn mark(t: Token, code: u8) -> Option<usize>
    ensures { result ≡ end_of (mark_of code t) }
{
    match t {
        Token::Control { code: c, next } if c == code => Some(next),
        _ => None,
    }
}

// The end of a token, if it is an atom.
#[tactic(auto, unfolding(crate::specs::Read::end_of, crate::specs::Read::atom_is))]
fn name(t: Token) -> Option<usize>
    ensures { result ≡ end_of (atom_is t) }
{
    match t {
        Token::Int { next, .. } | Token::Bytes { next, .. } => Some(next),
        _ => None,
    }
}

// The end of the value that the token t opens, in which lists and named values nest to depth.
#[cycle(list_opened)]
fn opened<S: Source>(from: S, t: Token, depth: usize) -> Option<usize>
    ensures { result ≡ end_of (opened_by (S.token_in from) (S.size from) depth t) }
{
    let Token::Control { code, next } = t else {
        return name(t);
    };
    if depth == 0 {
        return None;
    }
    match code {
        0xf0 => list(from, next, depth - 1),
        0xf2 => {
            let p = name(from.token(next))?;
            let q = opened(from, from.token(p), depth - 1)?;
            mark(from.token(q), 0xf3)
        }
        _ => None,
    }
}

// The end of the list whose values start at at.
#[cycle(list_opened)]
pub fn list<S: Source>(from: S, at: usize, depth: usize) -> Option<usize>
    ensures { result ≡ end_of (values_from (S.token_in from) (S.size from) depth at) }
{
    let mut i = at;
    loop {
        let t = from.token(i);
        if let Some(q) = mark(t, 0xf1) {
            return Some(q);
        }
        i = opened(from, t, depth)?;
    }
}

// The end of the value at at.
pub fn value<S: Source>(from: S, at: usize, depth: usize) -> Option<usize>
    ensures { result ≡ end_of (value_by (S.token_in from) (S.size from) depth at) }
{
    opened(from, from.token(at), depth)
}

// The end of the value in bytes that the token t opens.
pub fn opened_in(s: &[u8], t: Token, depth: usize) -> Option<usize>
    ensures { result ≡ end_of (opened_in s.now depth t) }
{
    opened(s, t, depth)
}

// The end of the value at at in bytes.
pub fn value_at(s: &[u8], at: usize, depth: usize) -> Option<usize>
    ensures { result ≡ end_of (value_at s.now depth at) }
{
    value(s, at, depth)
}

// The end of the list in bytes whose values start at at.
pub fn list_at(s: &[u8], at: usize, depth: usize) -> Option<usize>
    ensures { result ≡ end_of (values_at s.now depth at) }
{
    list(s, at, depth)
}

// The end of the control token `code`, if that stands at at in bytes.
pub fn mark_at(s: &[u8], at: usize, code: u8) -> Option<usize>
    ensures { result ≡ end_of (mark_of code (token_at s.now at)) }
{
    mark(token::read(s, at), code)
}

// A list is its end, or a value and the rest of the list.
pub fn law_list()
    ensures { ListStep }
{}

// Reading never runs past the input.
pub fn law_inside()
    ensures { Inside }
{}

// Skipping empty tokens never changes a value.
pub fn law_skipped()
    ensures { Skipped }
{}
