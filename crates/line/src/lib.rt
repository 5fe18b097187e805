// The simulator's text: a line is read as one question to the card, and bytes and numbers are written as text.
#![tactic(auto)]

mod chars;
mod lines;
mod params;
mod words;
mod write;

ghost use Rattle.std.specs.Prelude.{◌≡◌, true, length};
ghost use Rattle.token.specs.Write.{put_all};
ghost use Rattle.line.specs.Number.{decimal_of};
ghost use Rattle.line.specs.Line.{line_of, remark};
ghost use Rattle.line.specs.Write.{hex_text, bytes_at, put_end};
ghost use Rattle.line.specs.Laws.{ReadBack};

// Why a line can't be read.
#[derive(Clone, Copy, PartialEq, Eq)]
pub enum Why {
    // the first word is none of ours
    Word,
    // a parameter is missing
    Few,
    // a word follows the last parameter
    Many,
    // not a number
    Number,
    // a number of more than 64 bits
    Large,
    // not hex
    Hex,
    // an odd count of hex digits
    Odd,
    // an answer buffer of more than 65,536 bytes
    Room,
}

// What a line says. Bytes stay in the line: len digits, an even count, from at on; none for `-`.
#[derive(Clone, Copy, PartialEq, Eq)]
pub enum Line {
    // nothing, or a remark
    Pass,
    New { n: u64, at: usize, len: usize },
    Command { room: usize, at: usize, len: usize },
    Power,
    Reset,
    Media { write: bool, start: u64, count: u64 },
    Image,
    Load { at: usize, len: usize },
}

// A line's first word.
#[derive(Clone, Copy, PartialEq, Eq)]
pub enum Verb {
    New,
    Command,
    Power,
    Reset,
    Read,
    Write,
    Image,
    Load,
}

// Whether a line is a remark, however long it is.
#[tactic(auto, unfolding(crate::specs::Line::remark_in))]
pub fn is_remark(s: &[u8]) -> bool
    ensures { result ≡ remark s.now }
{
    match words::word(s, 0) {
        Some((p, _)) => s[p] == b'#',
        None => false,
    }
}

// What a line says.
#[tactic(auto, unfolding(crate::specs::Line::line_in))]
pub fn read(s: &[u8]) -> Result<Line, Why>
    ensures { result ≡ line_of s.now }
{
    let Some((p, e)) = words::word(s, 0) else {
        return Ok(Line::Pass);
    };
    if s[p] == b'#' {
        return Ok(Line::Pass);
    }
    let k = lines::verb_of(&s[p..e]).ok_or(Why::Word)?;
    lines::by_verb(s, e, k)
}

// The bytes that len digits of s say from at on, to the front of out: how many. None where the digits are not there, or where there is no room.
#[tactic(auto, using(crate::proofs::Puts::bytes_there))]
pub fn unhex(out: &mut [u8], s: &[u8], at: usize, len: usize) -> usize
    ensures answer { result ≡ put_end (length out.old) 0 (bytes_at s.now at len) }
    ensures buffer { out.new ≡ put_all true out.old 0 (bytes_at s.now at len) }
{
    if s.len() < at || s.len() - at < len {
        return 0;
    }
    write::meant(out, 0, &s[at..at + len])
}

// A text as it is, at at; the place after it. Where there is no room nothing is written and at comes back.
pub fn put_text(out: &mut [u8], at: usize, s: &[u8]) -> usize
    ensures answer { result ≡ put_end (length out.old) at s.now }
    ensures buffer { out.new ≡ put_all true out.old at s.now }
{
    write::plain(out, at, s)
}

// Bytes as hex digits, or `-` for none, the same way.
pub fn put_hex(out: &mut [u8], at: usize, s: &[u8]) -> usize
    ensures answer { result ≡ put_end (length out.old) at (hex_text s.now) }
    ensures buffer { out.new ≡ put_all true out.old at (hex_text s.now) }
{
    if s.is_empty() {
        return write::plain(out, at, b"-");
    }
    write::spelled(out, at, s)
}

// A number in decimal digits, the same way.
pub fn put_decimal(out: &mut [u8], at: usize, v: u64) -> usize
    ensures answer { result ≡ put_end (length out.old) at (decimal_of v) }
    ensures buffer { out.new ≡ put_all true out.old at (decimal_of v) }
{
    let mut d = [0u8; 20];
    let mut j = 20;
    let mut w = v;
    // stays a while: how often it runs is known only as it goes
    while 10 <= w {
        j -= 1;
        d[j] = chars::letter((w % 10) as u8);
        w /= 10;
    }
    j -= 1;
    d[j] = chars::letter(w as u8);
    write::plain(out, at, &d[j..])
}

// What is written is read back.
pub fn law_read_back()
    ensures { ReadBack }
{}
