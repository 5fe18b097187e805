// Values read and written whole, and values that are cut, too deep or out of order.
use crate::say;
use std::io;
use tape::{Took, TookError};

fn ends(rt: &impl Print, s: &[u8]) -> io::Result<()> {
    print!(rt; "  ")?;
    say::hex(rt, s)?;
    match value::value_at(s, 0, 16) {
        Some(q) => println!(rt; "is a value of {q} bytes"),
        None => println!(rt; "is broken"),
    }
}

// From bytes to a tape, and from there to bytes again.
fn again(rt: &impl Print, s: &[u8], out: &mut [u8]) -> io::Result<()> {
    let mut words = [0u64; 24];
    print!(rt; "  ")?;
    say::hex(rt, s)?;
    match tape::read_value(s, 0, &mut words, 0) {
        Ok(Took { node, .. }) => print!(rt; "takes {node} nodes, ")?,
        Err(TookError::Full) => print!(rt; "has no room on the tape, ")?,
        Err(TookError::Broken) => print!(rt; "is broken, ")?,
    }
    let p = tape::write_value(&words, s, 0, &mut *out, 0);
    say::wrote(
        rt,
        p,
        out,
        "written again as ",
        "no room, the buffer is still ",
        "no value to write, the buffer is still ",
    )
}

pub(crate) fn run(rt: &impl Print) -> io::Result<()> {
    println!(rt; "Values")?;
    ends(rt, b"\xf0\xf1")?;
    ends(rt, b"\xf0\x01\xf2\x03\xa1a\xf3\xf1")?;
    ends(rt, b"\xff\xf0\xff\x01\xff\xf1")?;
    ends(
        rt,
        b"\xf0\xf0\xf0\xf0\xf0\xf0\xf0\xf0\xf0\xf0\xf0\xf0\xf0\xf0\xf0\xf0\xf1\xf1\xf1\xf1\xf1\xf1\xf1\xf1\xf1\xf1\xf1\xf1\xf1\xf1\xf1\xf1",
    )?;
    println!(rt;
        "Seventeen lists, an unclosed name, an unclosed list, a name that is a list, a stray end, nothing"
    )?;
    ends(
        rt,
        b"\xf0\xf0\xf0\xf0\xf0\xf0\xf0\xf0\xf0\xf0\xf0\xf0\xf0\xf0\xf0\xf0\xf0\xf1\xf1\xf1\xf1\xf1\xf1\xf1\xf1\xf1\xf1\xf1\xf1\xf1\xf1\xf1\xf1\xf1",
    )?;
    ends(rt, b"\xf2\x01\x02")?;
    ends(rt, b"\xf0\x01")?;
    ends(rt, b"\xf2\xf0\xf1\x01\xf3")?;
    ends(rt, b"\xf3")?;
    ends(rt, b"")?;
    ends(rt, b"\xff")?;
    println!(rt;
        "To a tape and back: the shortest form, too little room, too little tape, no value"
    )?;
    let mut out = [0u8; 16];
    again(
        rt,
        b"\xf0\xff\xc0\x01\x05\xf2\xd0\x01a\x82\x00\x07\xf3\xf1",
        &mut out,
    )?;
    let mut small = [0u8; 7];
    again(
        rt,
        b"\xf0\xff\xc0\x01\x05\xf2\xd0\x01a\x82\x00\x07\xf3\xf1",
        &mut small,
    )?;
    again(rt, b"\xf0\x01\x02\x03\x04\x05\x06\x07\xf1", &mut small)?;
    again(rt, b"\xf0\x01", &mut small)
}
