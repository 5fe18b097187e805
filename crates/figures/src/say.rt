// What bytes are printed with.
use std::io;
use token::PutError;

// The n bytes of s from byte first on, or those that are there.
pub(crate) fn part(rt: &impl Print, s: &[u8], first: usize, n: usize) -> io::Result<()> {
    for b in s.iter().skip(first).take(n) {
        print!(rt; "{b:02x} ")?;
    }
    Ok(())
}

// The first n bytes of s, or all where it has fewer.
pub(crate) fn some(rt: &impl Print, s: &[u8], n: usize) -> io::Result<()> {
    part(rt, s, 0, n)
}

pub(crate) fn hex(rt: &impl Print, s: &[u8]) -> io::Result<()> {
    if s.is_empty() {
        print!(rt; "nothing ")?;
    }
    some(rt, s, s.len())
}

// What a writer answered, and the buffer: as far as it is written, or whole where the writer refused.
pub(crate) fn wrote(
    rt: &impl Print,
    p: Result<usize, PutError>,
    buf: &[u8],
    done: &str,
    full: &str,
    outside: &str,
) -> io::Result<()> {
    let (word, n) = match p {
        Ok(n) => (done, n),
        Err(PutError::Full) => (full, buf.len()),
        Err(PutError::Outside) => (outside, buf.len()),
    };
    print!(rt; "{word}")?;
    some(rt, buf, n)?;
    println!(rt; "")
}
