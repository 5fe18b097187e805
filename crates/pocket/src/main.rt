// The simulator: lines from standard input, and one answer on standard output, at once, for each that is not passed over. Lines are cut by
// `desk::cut` and answered by `desk::turn`; what is left here reads and writes.
#![tactic(auto)]

ghost use Rattle.std.specs.Prelude.{◌≡◌, length};
ghost use Rattle.std.specs.Io.{ReadsAtMost};

use desk::cut;
use std::io;
use std::io::{ErrorKind, Read, Write};

// What is kept between lines: whether a card is in hand, and how much of the next line is there; both beside buffers that are lent, as there is no heap.
#[derive(Clone, Copy)]
struct State {
    there: bool,
    len: usize,
}

// Zeros, for the card's image, and for a line, an answer and a piece of input.
fn zeros<const N: usize>() -> [u8; N]
    ensures { N ≡ length result }
{
    [0; N]
}

// One read, again where a signal broke it off.
fn read_some<R: Read>(input: &mut R, piece: &mut [u8]) -> io::Result<usize>
    ensures { ReadsAtMost result piece.new }
{
    for _ in 0..u64::MAX {
        match input.read(piece) {
            Ok(n) => return Ok(n),
            Err(e) if e.kind() == ErrorKind::Interrupted => {}
            Err(e) => return Err(e),
        }
    }
    Err(io::Error::from(ErrorKind::Interrupted))
}

// Answers the line that is there. A line that is passed over has no text, and gets no line feed.
fn answer<W: Write>(
    output: &mut W,
    image: &mut [u8],
    line: &[u8],
    out: &mut [u8],
    s: State,
) -> io::Result<State> {
    let a = desk::turn(image, s.there, cut::front(line, s.len), out);
    if a.count > 0 {
        let n = line::put_text(out, a.count, b"\n");
        output.write_all(cut::front(out, n))?;
    }
    Ok(State {
        there: a.there,
        len: 0,
    })
}

// A piece of input: every line that ends in it is answered, and the start of the next one is kept.
fn feed<W: Write>(
    output: &mut W,
    image: &mut [u8],
    line: &mut [u8],
    out: &mut [u8],
    piece: &[u8],
    mut s: State,
) -> io::Result<State> {
    let mut rest = piece;
    while !rest.is_empty() {
        let e = cut::line_end(rest);
        s.len = cut::keep(line, s.len, cut::front(rest, e));
        let Some(next) = rest.get(e + 1..) else {
            return Ok(s);
        };
        s = answer(output, image, line, out, s)?;
        rest = next;
    }
    Ok(s)
}

// To the end of the input, a last line without a line feed among the lines.
fn run<R: Read, W: Write>(
    input: &mut R,
    output: &mut W,
    image: &mut [u8],
    line: &mut [u8],
    out: &mut [u8],
    piece: &mut [u8],
) -> io::Result<()> {
    let mut s = State {
        there: false,
        len: 0,
    };
    for _ in 0..u64::MAX {
        let n = read_some(input, piece)?;
        if n == 0 {
            if s.len > 0 {
                answer(output, image, line, out, s)?;
            }
            return Ok(());
        }
        s = feed(output, image, line, out, &piece[..n], s)?;
    }
    Ok(())
}

fn main(rt: HostRuntime) -> io::Result<()> {
    let mut image: [u8; 1188] = zeros();
    let mut line: [u8; 65536] = zeros();
    let mut out: [u8; 65536] = zeros();
    let mut piece: [u8; 65536] = zeros();
    run(
        &mut rt.stdin(),
        &mut rt.stdout(),
        &mut image,
        &mut line,
        &mut out,
        &mut piece,
    )
}
