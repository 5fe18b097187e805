// The figures on tokens, and tokens that are not there or broken.
use crate::say;
use std::io;
use token::{PutError, Token};

fn read(rt: &impl Print, s: &[u8]) -> io::Result<()> {
    print!(rt; "  ")?;
    say::hex(rt, s)?;
    match token::read(s, 0) {
        Token::Int { value, .. } => println!(rt; "is the integer {value}"),
        Token::Bytes { len, .. } => println!(rt; "is {len} bytes"),
        Token::Control { .. } => println!(rt; "is a control token"),
        Token::End => println!(rt; "is the end of the input"),
        Token::Broken => println!(rt; "is broken"),
    }
}

// What a writer answers in this buffer, and the buffer.
fn wrote<F: FnOnce(&mut [u8]) -> Result<usize, PutError>>(
    rt: &impl Print,
    buf: &mut [u8],
    write: F,
) -> io::Result<()>
    requires { F.IsAlwaysCallable write }
{
    let p = write(&mut *buf);
    say::wrote(
        rt,
        p,
        buf,
        "",
        "refused for want of room, the buffer is still ",
        "refused as outside the limits, the buffer is still ",
    )
}

fn int(rt: &impl Print, v: u64) -> io::Result<()> {
    print!(rt; "  {v} is written ")?;
    wrote(rt, &mut [0; 9], |b| token::put_int(b, 0, v))
}

fn bytes(rt: &impl Print, s: &[u8]) -> io::Result<()> {
    let size = s.len();
    print!(rt; "  {size} bytes are written ")?;
    wrote(rt, &mut [0; 40], |b| token::put_bytes(b, 0, s))
}

pub(crate) fn run(rt: &impl Print) -> io::Result<()> {
    println!(rt; "Tokens read")?;
    read(rt, b"\x3f")?;
    read(rt, b"\x40")?;
    read(rt, b"\x81\x40")?;
    read(rt, b"\x81\x05")?;
    read(rt, b"\x80")?;
    read(rt, b"\xa0")?;
    println!(rt; "Longer forms, leading zeros and empty tokens")?;
    read(rt, b"\x82\x00\x05")?;
    read(rt, b"\x88\xff\xff\xff\xff\xff\xff\xff\xff")?;
    read(rt, b"\xc0\x01\x05")?;
    read(rt, b"\xe0\x00\x00\x01\x05")?;
    read(rt, b"\xd0\x00")?;
    read(rt, b"\xe2\x00\x00\x00")?;
    read(rt, b"\xff\xff\x05")?;
    println!(rt; "Bad input")?;
    read(rt, b"")?;
    read(rt, b"\xff")?;
    read(rt, b"\x81")?;
    read(rt, b"\xa1")?;
    read(rt, b"\xd0")?;
    read(rt, b"\xe2")?;
    read(rt, b"\xe2\xff\xff\xff")?;
    read(rt, b"\x89\x00\x00\x00\x00\x00\x00\x00\x00\x05")?;
    read(rt, b"\x91\x05")?;
    read(rt, b"\xb1\x05")?;
    read(rt, b"\xe4")?;
    read(rt, b"\xf4")?;
    read(rt, b"\xfd")?;
    println!(rt; "Tokens written")?;
    int(rt, 63)?;
    int(rt, 64)?;
    int(rt, 255)?;
    int(rt, 256)?;
    int(rt, u64::MAX)?;
    bytes(rt, b"")?;
    bytes(rt, b"fifteen bytes..")?;
    bytes(rt, b"sixteen bytes...")?;
    bytes(rt, b"a PIN of thirty-two bytes is one")?;
    print!(rt; "  65,536 in three bytes is ")?;
    wrote(rt, &mut [0; 3], |b| token::put_int(b, 0, 65536))?;
    print!(rt; "  65,535 in three bytes is ")?;
    wrote(rt, &mut [0; 3], |b| token::put_int(b, 0, 65535))?;
    print!(rt; "  the control token F4 is ")?;
    wrote(rt, &mut [0; 1], |b| token::put_control(b, 0, 0xf4))
}
