// Whole values in memory that the caller lends: a tape of nodes, three words each, in the order of the tokens.
// Both ways are all or nothing: a value is judged and measured first, and only then is anything written.
#![tactic(auto)]

ghost use Rattle.std.specs.Prelude.{◌≡◌, [], ◌∷◌, true, ◌+◌, ◌*◌, ◌<◌, ◌≤◌, length, Some};
ghost use Rattle.token.specs.Bytes.{over};
ghost use Rattle.token.specs.Write.{put_all};
ghost use Rattle.value.specs.Read.{end_of, value_at};
ghost use Rattle.value.specs.Source.{node_at, tree_at};
ghost use Rattle.tape.specs.Write.{wrote_end, wrote_all};
ghost use Rattle.tape.specs.Words.{took_end, took_all};
ghost use Rattle.tape.specs.Steps.{enc_token, token_words, next_of, bytes_in, words_in};
ghost use Rattle.tape.specs.Laws.{RoundTrip, Written, Laid, Shortest};

use token::{PutError, Token};
use value::Tape;

// How deep lists and named values nest.
const DEPTH: usize = 16;

// The node after the value's, and the byte after it.
#[derive(Clone, Copy)]
pub struct Took {
    pub node: usize,
    pub next: usize,
}

// Why no value is on the tape.
#[derive(Clone, Copy, PartialEq, Eq)]
pub enum TookError {
    // no room on the tape
    Full,
    // no value stands there
    Broken,
}

// How many bytes the node i takes.
fn node_len(tape: Tape<'_>, i: usize) -> usize
    ensures { (result ≡ length (enc_token tape.entry.bytes.now (node_at tape.entry.nodes.now (length tape.entry.bytes.now) i))) × (result ≤ 16777220) }
{
    match value::node(tape.nodes, tape.bytes.len(), i) {
        Token::Int { value, .. } => token::int_len(value),
        Token::Bytes { len, .. } => token::head_len(len) + len,
        Token::Control { .. } => 1,
        Token::End | Token::Broken => 0,
    }
}

// The node i, at at.
fn put_node(out: &mut [u8], at: usize, tape: Tape<'_>, i: usize)
    ensures { out.new ≡ put_all true out.old at (enc_token tape.entry.bytes.now (node_at tape.entry.nodes.now (length tape.entry.bytes.now) i)) }
{
    let _ = match value::node(tape.nodes, tape.bytes.len(), i) {
        Token::Int { value, .. } => token::put_int(out, at, value),
        Token::Bytes { start, len, .. } => {
            token::put_bytes(out, at, &tape.bytes[start..start + len])
        }
        Token::Control { code, .. } => token::put_control(out, at, code),
        Token::End | Token::Broken => Ok(at),
    };
}

// Whether the value from the node i to q has room at at in n bytes, and where it ends.
fn room(tape: Tape<'_>, i: usize, q: usize, n: usize, at: usize) -> Result<usize, PutError>
    requires { end_of (tree_at tape.nodes.now tape.bytes.now 16 i) ≡ Some q }
    ensures { result ≡ wrote_end tape.entry.bytes.now n at (tree_at tape.entry.nodes.now tape.entry.bytes.now 16 i) }
{
    if n < at {
        return Err(PutError::Full);
    }
    let mut p = at;
    for j in i..q {
        let k = node_len(tape, j);
        if n - p < k {
            return Err(PutError::Full);
        }
        p += k;
    }
    Ok(p)
}

// The value from the node i to q, at at, where it has room.
fn fill(out: &mut [u8], at: usize, tape: Tape<'_>, i: usize, q: usize)
    requires { (end_of (tree_at tape.nodes.now tape.bytes.now 16 i) ≡ Some q) × (at + length (bytes_in tape.bytes.now (tree_at tape.nodes.now tape.bytes.now 16 i)) ≤ length out.old) }
    ensures { out.new ≡ wrote_all tape.entry.bytes.now out.old at (tree_at tape.entry.nodes.now tape.entry.bytes.now 16 i) }
{
    let mut p = at;
    for j in i..q {
        let k = node_len(tape, j);
        put_node(&mut *out, p, tape, j);
        p += k;
    }
}

// Writes the value that starts at the node i of the tape, whose byte strings are in bytes, to out from at on.
pub fn write_value(
    tape: &[u64],
    bytes: &[u8],
    i: usize,
    out: &mut [u8],
    at: usize,
) -> Result<usize, PutError>
    ensures answer { result ≡ wrote_end bytes.now (length out.old) at (tree_at tape.now bytes.now 16 i) }
    ensures buffer { out.new ≡ wrote_all bytes.now out.old at (tree_at tape.now bytes.now 16 i) }
{
    let tape = Tape { nodes: tape, bytes };
    let Some(q) = value::value(tape, i, DEPTH) else {
        return Err(PutError::Outside);
    };
    let end = room(tape, i, q, out.len(), at)?;
    fill(out, at, tape, i, q);
    Ok(end)
}

fn triple(tape: &mut [u64], p: usize, a: u64, b: u64, c: u64)
    requires { p + 3 ≤ length tape.old }
    ensures { tape.new ≡ over tape.old p (a ∷ b ∷ c ∷ []) }
{
    tape[p] = a;
    tape[p + 1] = b;
    tape[p + 2] = c;
}

// The node of a token, at the word p.
fn lay(tape: &mut [u64], p: usize, t: Token)
    requires { p + 3 ≤ length tape.old }
    ensures { tape.new ≡ over tape.old p (token_words t) }
{
    match t {
        Token::Int { value, .. } => triple(tape, p, 1, value, 0),
        Token::Bytes { start, len, .. } => triple(tape, p, 2, start as u64, len as u64),
        Token::Control { code, .. } => triple(tape, p, u64::from(code), 0, 0),
        Token::End | Token::Broken => triple(tape, p, 0, 0, 0),
    }
}

// Where the token after t stands, and z after none.
#[tactic(auto, unfolding(crate::specs::Steps::next_of))]
fn next_of(z: usize, t: Token) -> usize
    ensures { result ≡ next_of z t }
{
    match t {
        Token::Int { next, .. } | Token::Bytes { next, .. } | Token::Control { next, .. } => next,
        Token::End | Token::Broken => z,
    }
}

// How many nodes the value from at to z takes.
fn count(s: &[u8], at: usize, z: usize) -> usize
    requires { end_of (value_at s.now 16 at) ≡ Some z }
    ensures { result * 3 ≡ length (words_in (value_at s.now 16 at)) }
{
    let mut p = at;
    let mut m = 0;
    // a while: it goes from token to token, and they differ in length
    while p < z {
        let t = token::read(s, p);
        p = next_of(z, t);
        m += 1;
    }
    m
}

// The value from at to z, from the node i on, where it has room.
fn load(s: &[u8], at: usize, z: usize, tape: &mut [u64], i: usize)
    requires { (end_of (value_at s.now 16 at) ≡ Some z) × (i * 3 + length (words_in (value_at s.now 16 at)) ≤ length tape.old) }
    ensures { tape.new ≡ took_all tape.old i (value_at s.now 16 at) }
{
    let mut p = at;
    let mut j = i;
    // a while, for the same reason
    while p < z {
        let t = token::read(s, p);
        lay(&mut *tape, j * 3, t);
        p = next_of(z, t);
        j += 1;
    }
}

// Reads the value at at to the tape, from the node i on; its byte strings stay in s.
pub fn read_value(s: &[u8], at: usize, tape: &mut [u64], i: usize) -> Result<Took, TookError>
    ensures answer { result ≡ took_end (length tape.old) i (value_at s.now 16 at) }
    ensures words { tape.new ≡ took_all tape.old i (value_at s.now 16 at) }
{
    let Some(z) = value::value_at(s, at, DEPTH) else {
        return Err(TookError::Broken);
    };
    let m = count(s, at, z);
    let n = tape.len() / 3;
    if n < i || n - i < m {
        return Err(TookError::Full);
    }
    load(s, at, z, tape, i);
    Ok(Took {
        node: i + m,
        next: z,
    })
}

// What is written is read back as the same value, with anything after it.
pub fn law_round_trip()
    ensures { RoundTrip }
{}

// What is written from a tape stands in the bytes: the same value, up to the place that is answered.
pub fn law_written()
    ensures { Written }
{}

// What is read to a tape stands on it: the same value, up to the node that is answered.
pub fn law_laid()
    ensures { Laid }
{}

// The writer's output is the shortest form.
pub fn law_shortest()
    ensures { Shortest }
{}
