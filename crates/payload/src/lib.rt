// What a payload is: a call, the end of a session, the start or the end of a transaction, or broken.
#![tactic(auto)]

ghost use Rattle.std.specs.Prelude.{◌≡◌};
ghost use Rattle.token.specs.Token.{token_at};
ghost use Rattle.value.specs.Read.{then, end_of};
ghost use Rattle.payload.specs.Payload.{atom_at, uid_at, int_at, status_at, call_at, finish_is, starts_by, payload_at};
ghost use Rattle.payload.specs.Found.{found};
ghost use Rattle.payload.specs.Exact.{PayloadsAsSaid, Skipped};

use token::Token;

#[derive(Clone, Copy)]
pub enum Payload {
    // a method of an object, both as numbers, with the values of its parameters from params on
    Call {
        object: u64,
        method: u64,
        params: usize,
    },
    EndSession,
    Begin,
    Commit,
    Abandon,
    // stays a kind of its own, and no None: document 01 names a broken payload among those that are answered
    Broken,
}

// The UID at at, as a number, and its end.
#[tactic(auto, unfolding(value::specs::Read::then, value::specs::Read::atom_is, crate::specs::Payload::uid_is, crate::specs::Found::found))]
fn uid_at(s: &[u8], at: usize) -> Option<(u64, usize)>
    ensures { uid_at s.now at ≡ found result }
{
    match token::read(s, at) {
        Token::Bytes { start, len, next } if len == 8 => {
            Some((token::number_at(s, start, 8), next))
        }
        _ => None,
    }
}

// The end of the integer w, if that stands at at.
#[tactic(auto, unfolding(value::specs::Read::then, value::specs::Read::end_of, value::specs::Read::atom_is, crate::specs::Payload::int_is))]
fn int_at(s: &[u8], at: usize, w: u64) -> Option<usize>
    ensures { result ≡ end_of (int_at s.now w at) }
{
    match token::read(s, at) {
        Token::Int { value, next } if value == w => Some(next),
        _ => None,
    }
}

// The end of the status list at at: three zeros.
fn status_at(s: &[u8], at: usize) -> Option<usize>
    ensures { result ≡ end_of (status_at s.now at) }
{
    let a = value::mark_at(s, at, 0xf0)?;
    let b = int_at(s, a, 0)?;
    let c = int_at(s, b, 0)?;
    let d = int_at(s, c, 0)?;
    value::mark_at(s, d, 0xf1)
}

// What follows F8, and its end: a call, with F9 and the status behind its list.
fn call_at(s: &[u8], at: usize) -> Option<(Payload, usize)>
    ensures { call_at s.now at ≡ found result }
{
    let (object, a) = uid_at(s, at)?;
    let (method, b) = uid_at(s, a)?;
    let params = value::mark_at(s, b, 0xf0)?;
    let c = value::list_at(s, params, 15)?;
    let d = value::mark_at(s, c, 0xf9)?;
    let e = status_at(s, d)?;
    let call = Payload::Call {
        object,
        method,
        params,
    };
    Some((call, e))
}

// What follows FC, and its end.
#[tactic(auto, unfolding(value::specs::Read::then, value::specs::Read::atom_is, crate::specs::Payload::finish_is, crate::specs::Found::found))]
fn finish_at(s: &[u8], at: usize) -> Option<(Payload, usize)>
    ensures { then (atom_at s.now at) finish_is ≡ found result }
{
    match token::read(s, at) {
        Token::Int { value: 0, next } => Some((Payload::Commit, next)),
        Token::Int { value: 1, next } => Some((Payload::Abandon, next)),
        _ => None,
    }
}

// What starts at at, and its end.
#[tactic(auto, unfolding(value::specs::Read::then, value::specs::Read::end_of, crate::specs::Payload::starts_by, crate::specs::Found::found))]
fn starts_at(s: &[u8], at: usize) -> Option<(Payload, usize)>
    ensures { starts_by s.now (token_at s.now at) ≡ found result }
{
    let Token::Control { code, next } = token::read(s, at) else {
        return None;
    };
    match code {
        0xf8 => call_at(s, next),
        0xfa => Some((Payload::EndSession, next)),
        0xfb => Some((Payload::Begin, int_at(s, next, 0)?)),
        0xfc => finish_at(s, next),
        _ => None,
    }
}

// The payload that stands in s from at on, and ends with s.
#[tactic(auto, unfolding(crate::specs::Payload::last_of, crate::specs::Payload::is_end, crate::specs::Found::found))]
pub fn parse(s: &[u8], at: usize) -> Payload
    ensures { result ≡ payload_at s.now at }
{
    match starts_at(s, at) {
        Some((p, end)) if matches!(token::read(s, end), Token::End) => p,
        _ => Payload::Broken,
    }
}

// Exactly which rows of tokens are which payload.
pub fn law_payloads()
    ensures { PayloadsAsSaid }
{}

// Skipping empty tokens never changes a payload.
pub fn law_skipped()
    ensures { Skipped }
{}
