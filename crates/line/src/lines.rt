// Each kind of line, by its first word.
ghost use Rattle.std.specs.Prelude.{◌≡◌};
ghost use Rattle.line.specs.Line.{verb_of, ended, media, said};

use crate::{Line, Verb, Why, params, words};

#[tactic(auto, unfolding(crate::specs::Line::verb_of))]
pub(crate) fn verb_of(w: &[u8]) -> Option<Verb>
    ensures { result ≡ verb_of w.now }
{
    match w {
        b"new" => Some(Verb::New),
        b"cmd" => Some(Verb::Command),
        b"power" => Some(Verb::Power),
        b"reset" => Some(Verb::Reset),
        b"read" => Some(Verb::Read),
        b"write" => Some(Verb::Write),
        b"image" => Some(Verb::Image),
        b"load" => Some(Verb::Load),
        _ => None,
    }
}

// l, where no word is left.
fn end(s: &[u8], at: usize, l: Line) -> Result<Line, Why>
    ensures { result ≡ ended s.now at l }
{
    match words::word(s, at) {
        Some(_) => Err(Why::Many),
        None => Ok(l),
    }
}

// N MSIDHEX
fn new(s: &[u8], at: usize) -> Result<Line, Why>
    ensures { result ≡ said s.now at Verb.New }
{
    let (n, q) = params::number(s, at)?;
    let (p, len, next) = params::hex_at(s, q)?;
    end(s, next, Line::New { n, at: p, len })
}

// ROOM HEX
fn command(s: &[u8], at: usize) -> Result<Line, Why>
    ensures { result ≡ said s.now at Verb.Command }
{
    let (n, q) = params::number(s, at)?;
    if 65536 < n {
        return Err(Why::Room);
    }
    let room = n as usize;
    let (p, len, next) = params::hex_at(s, q)?;
    end(s, next, Line::Command { room, at: p, len })
}

// START COUNT
fn range(s: &[u8], at: usize, write: bool) -> Result<Line, Why>
    ensures { result ≡ media s.now at write }
{
    let (start, q) = params::number(s, at)?;
    let (count, next) = params::number(s, q)?;
    let l = Line::Media {
        write,
        start,
        count,
    };
    end(s, next, l)
}

// HEX
fn load(s: &[u8], at: usize) -> Result<Line, Why>
    ensures { result ≡ said s.now at Verb.Load }
{
    let (p, len, next) = params::hex_at(s, at)?;
    end(s, next, Line::Load { at: p, len })
}

// By the first word, with the parameters from at on.
pub(crate) fn by_verb(s: &[u8], at: usize, k: Verb) -> Result<Line, Why>
    ensures { result ≡ said s.now at k }
{
    match k {
        Verb::New => new(s, at),
        Verb::Command => command(s, at),
        Verb::Power => end(s, at, Line::Power),
        Verb::Reset => end(s, at, Line::Reset),
        Verb::Read => range(s, at, false),
        Verb::Write => range(s, at, true),
        Verb::Image => end(s, at, Line::Image),
        Verb::Load => load(s, at),
    }
}
