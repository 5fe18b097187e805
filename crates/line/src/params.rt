// A word as a parameter: a number, or hex.
ghost use Rattle.std.specs.Prelude.{◌≡◌, ◌≤◌, length};
ghost use Rattle.line.specs.Number.{sized, value_of};
ghost use Rattle.line.specs.Line.{number_at, hex_in, hex_at};

use crate::{Why, chars, words};

// The number that the digits of w make.
fn decimal(w: &[u8]) -> Result<u64, Why>
    ensures { result ≡ sized (value_of 0 w.now) }
{
    let mut v: u64 = 0;
    for b in w {
        let d = u64::from(chars::digit(*b));
        let tens = v.checked_mul(10).ok_or(Why::Large)?;
        v = tens.checked_add(d).ok_or(Why::Large)?;
    }
    Ok(v)
}

// The next word from at on, as a number, and the place after it.
#[tactic(auto, using(crate::proofs::Walks::past_any), unfolding(crate::specs::Line::number_in))]
pub(crate) fn number(s: &[u8], at: usize) -> Result<(u64, usize), Why>
    ensures { result ≡ number_at s.now at }
{
    let (p, e) = words::word(s, at).ok_or(Why::Few)?;
    let w = &s[p..e];
    if chars::any_but_decimal(w) {
        return Err(Why::Number);
    }
    let v = decimal(w)?;
    Ok((v, e))
}

// The word from p to e as hex: where the digits start, how many there are, and the place after them.
#[tactic(auto, using(crate::proofs::Walks::past_any), unfolding(crate::specs::Line::hex_in))]
fn hex(s: &[u8], p: usize, e: usize) -> Result<(usize, usize, usize), Why>
    requires { (p ≤ e) × (e ≤ length s.now) }
    ensures { result ≡ hex_in s.now p e }
{
    let w = &s[p..e];
    if w == b"-".as_slice() {
        return Ok((p, 0, e));
    }
    if chars::any_but_hex(w) {
        return Err(Why::Hex);
    }
    if w.len() % 2 != 0 {
        return Err(Why::Odd);
    }
    Ok((p, w.len(), e))
}

// The next word from at on, as hex.
pub(crate) fn hex_at(s: &[u8], at: usize) -> Result<(usize, usize, usize), Why>
    ensures { result ≡ hex_at s.now at }
{
    let (p, e) = words::word(s, at).ok_or(Why::Few)?;
    hex(s, p, e)
}
