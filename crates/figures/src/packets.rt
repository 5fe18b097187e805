// The figures on packets: a StartSession, its answer and an end of session; and packets with one thing wrong.
use crate::say;
use packet::{Hsn, Tsn};
use payload::Payload;
use std::io;
use token::PutError;

// The payload of a StartSession with HSN 105.
const START: [u8; 39] =
    *b"\xf8\xa8\x00\x00\x00\x00\x00\x00\x00\xff\xa8\x00\x00\x00\x00\x00\x00\xff\x02\xf0\x81\x69\xa8\x00\x00\x02\x05\x00\x00\x00\x01\x01\xf1\xf9\xf0\x00\x00\x00\xf1";

// The end of session of TSN 1 and HSN 105.
pub(crate) const END: [u8; 60] =
    *b"\x00\x00\x00\x00\x10\x00\x00\x00\x00\x00\x00\x00\x00\x00\x00\x00\x00\x00\x00\x28\x00\x00\x00\x01\x00\x00\x00\x69\x00\x00\x00\x00\x00\x00\x00\x00\x00\x00\x00\x00\x00\x00\x00\x10\x00\x00\x00\x00\x00\x00\x00\x00\x00\x00\x00\x01\xfa\x00\x00\x00";

// What the packet s says.
fn said(rt: &impl Print, s: &[u8]) -> io::Result<()> {
    match packet::open(s) {
        Some(p) => {
            let (t, h) = (p.tsn.0, p.hsn.0);
            let (start, len) = (p.start, p.len);
            println!(rt; "TSN {t}, HSN {h}, payload of {len} at {start}")
        }
        None => println!(rt; "envelope broken"),
    }
}

// The payload s where it belongs in a packet, as far as there is room.
fn place(out: &mut [u8; 96], s: &[u8]) {
    for (to, from) in out[56..].iter_mut().zip(s) {
        *to = *from;
    }
}

// What the packet of n bytes says, and its bytes.
fn show(rt: &impl Print, out: &[u8; 96], n: usize) -> io::Result<()> {
    said(rt, out)?;
    print!(rt; "    ")?;
    say::some(rt, out, n)?;
    println!(rt; "")
}

// The payload s in a packet, and the packet.
fn sealed(rt: &impl Print, s: &[u8], tsn: Tsn, hsn: Hsn) -> io::Result<()> {
    let mut out = [0u8; 96];
    place(&mut out, s);
    let size = s.len();
    match packet::seal(&mut out, tsn, hsn, size) {
        Ok(n) => {
            print!(rt; "  payload {size}, total {n}: ")?;
            show(rt, &out, n)
        }
        Err(PutError::Full) => println!(rt; "  no room"),
        Err(PutError::Outside) => println!(rt; "  outside the limits"),
    }
}

// The end of session with one byte of it another.
fn wrong(rt: &impl Print, at: usize, b: u8) -> io::Result<()> {
    let mut s = END;
    if at < 60 {
        s[at] = b;
    }
    print!(rt; "  byte {at}: ")?;
    said(rt, &s)
}

// Whether the packet s is opened.
fn opens(s: &[u8]) -> bool {
    packet::open(s).is_some()
}

// Whether the payload s is one.
fn parses(s: &[u8]) -> bool {
    !matches!(payload::parse(s, 0), Payload::Broken)
}

// At how many of the places at which s can be cut the bytes before it are taken.
fn cut<F: Fn(&[u8]) -> bool>(rt: &impl Print, s: &[u8], taken: F) -> io::Result<()>
    requires { F.IsAlwaysCallable taken }
{
    let cuts = s.len();
    let count = (0..cuts).filter(|n| taken(&s[..*n])).count();
    println!(rt; "  of {cuts} cuts {count} are taken")
}

// The payload s with what stands in out at at between its bytes.
fn insert(out: &mut [u8; 40], s: &[u8], at: usize) {
    for (i, b) in s.iter().enumerate().take(39) {
        let to = if i < at { i } else { i + 1 };
        out[to] = *b;
    }
}

// Whether the payload s is still one with an F9 at at.
fn stray(s: &[u8], at: usize) -> bool {
    let mut out = [0xf9u8; 40];
    insert(&mut out, s, at);
    parses(&out)
}

// At how many of the places the payload s takes a stray F9.
fn strays(s: &[u8], places: &[u8]) -> usize {
    places
        .iter()
        .filter(|at| stray(s, usize::from(**at)))
        .count()
}

fn kind(rt: &impl Print, s: &[u8]) -> io::Result<()> {
    print!(rt; "  ")?;
    say::hex(rt, s)?;
    match payload::parse(s, 0) {
        Payload::Call {
            object,
            method,
            params,
        } => println!(rt; "calls {object} by {method}, parameters at {params}"),
        Payload::EndSession => println!(rt; "ends the session"),
        Payload::Begin => println!(rt; "starts a transaction"),
        Payload::Commit => println!(rt; "commits"),
        Payload::Abandon => println!(rt; "abandons"),
        Payload::Broken => println!(rt; "is broken"),
    }
}

pub(crate) fn run(rt: &impl Print) -> io::Result<()> {
    println!(rt; "StartSession with HSN 105, its answer with TSN 1, and the end of that session")?;
    sealed(rt, &START, Tsn(0), Hsn(0))?;
    sealed(
        rt,
        b"\xf8\xa8\x00\x00\x00\x00\x00\x00\x00\xff\xa8\x00\x00\x00\x00\x00\x00\xff\x03\xf0\x81\x69\x01\xf1\xf9\xf0\x00\x00\x00\xf1",
        Tsn(0),
        Hsn(0),
    )?;
    sealed(rt, b"\xfa", Tsn(1), Hsn(105))?;
    sealed(rt, b"", Tsn(1), Hsn(105))?;
    println!(rt;
        "The end of session with one byte another: pad, ComID, extension, Kind, the three lengths"
    )?;
    wrong(rt, 59, 1)?;
    wrong(rt, 4, 0x11)?;
    wrong(rt, 7, 1)?;
    wrong(rt, 51, 1)?;
    wrong(rt, 55, 0)?;
    wrong(rt, 55, 2)?;
    wrong(rt, 55, 5)?;
    wrong(rt, 43, 0x0f)?;
    wrong(rt, 43, 0x11)?;
    wrong(rt, 19, 0x27)?;
    wrong(rt, 19, 0x29)?;
    wrong(rt, 52, 0xff)?;
    print!(rt; "  all three lengths 4294967295: ")?;
    said(
        rt,
        b"\x00\x00\x00\x00\x10\x00\x00\x00\x00\x00\x00\x00\x00\x00\x00\x00\xff\xff\xff\xff\x00\x00\x00\x01\x00\x00\x00\x69\x00\x00\x00\x00\x00\x00\x00\x00\x00\x00\x00\x00\xff\xff\xff\xff\x00\x00\x00\x00\x00\x00\x00\x00\xff\xff\xff\xff\xfa\x00\x00\x00",
    )?;
    println!(rt; "The end of session and a StartSession's payload, cut after every byte")?;
    cut(rt, &END, opens)?;
    cut(rt, &START, parses)?;
    let strays = strays(
        &START,
        b"\x00\x01\x0a\x13\x14\x16\x1f\x20\x21\x22\x23\x24\x25\x26\x27",
    );
    println!(rt; "  of the 15 places between its tokens {strays} take a stray F9\nPayloads")?;
    kind(rt, b"\xfa")?;
    kind(rt, b"\xff\xfa\xff")?;
    kind(rt, b"\xfb\x00")?;
    kind(rt, b"\xfc\x00")?;
    kind(rt, b"\xfc\x81\x01")?;
    kind(rt, b"\xfb\x01")?;
    kind(rt, b"\xfc\x02")?;
    kind(rt, b"\xfa\x00")?;
    kind(rt, b"\xfb")?;
    kind(rt, b"")?;
    kind(rt, &START)?;
    kind(
        rt,
        b"\xf8\xa7\x00\x00\x00\x00\x00\x00\xff\xa8\x00\x00\x00\x00\x00\x00\xff\x02\xf0\xf1\xf9\xf0\x00\x00\x00\xf1",
    )?;
    kind(
        rt,
        b"\xf8\xa8\x00\x00\x00\x00\x00\x00\x00\xff\xa8\x00\x00\x00\x00\x00\x00\xff\x02\xf0\xf1\xf9\xf0\x00\x00\xf1",
    )?;
    kind(
        rt,
        b"\xf8\xa8\x00\x00\x00\x00\x00\x00\x00\xff\xa8\x00\x00\x00\x00\x00\x00\xff\x02\xf0\xf1\xf9\xf0\x00\x00\x01\xf1",
    )?;
    kind(
        rt,
        b"\xf8\xa8\x00\x00\x00\x00\x00\x00\x00\xff\xa8\x00\x00\x00\x00\x00\x00\xff\x02\xf0\xf1\xf0\x00\x00\x00\xf1",
    )?;
    kind(
        rt,
        b"\xf8\xa8\x00\x00\x00\x00\x00\x00\x00\xff\xa8\x00\x00\x00\x00\x00\x00\xff\x02\xf0\xf1\xf9\xf0\x00\x00\x00\xf1\x00",
    )
}
