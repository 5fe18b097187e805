// Lines are cut from input that comes in pieces: where a line ends, and what is kept of it.
ghost use Rattle.std.specs.Prelude.{◌≡◌, ◌≤◌, length, take};
ghost use Rattle.desk.specs.Cut.{line_end, kept_end, kept, Pieces};

// The place of the first line feed of s, or the end of s where there is none.
pub fn line_end(s: &[u8]) -> usize
    ensures { (result ≡ line_end s.now) × (result ≤ length s.now) }
{
    (0..s.len())
        .find(|&i| s.get(i) == Some(&b'\n'))
        .unwrap_or(s.len())
}

// The first n bytes of s, or all where it has fewer.
pub fn front(s: &[u8], n: usize) -> &[u8]
    ensures { result.now ≡ take n s.now }
{
    s.get(..n).unwrap_or(s)
}

// What s has is put behind the line's first len bytes, as far as there is room: how long the line is then.
pub fn keep(line: &mut [u8], len: usize, s: &[u8]) -> usize
    ensures count { result ≡ kept_end (length line.old) len s.now }
    ensures buffer { line.new ≡ kept line.old len s.now }
{
    if line.len() < len {
        return len;
    }
    let room = line.len() - len;
    line::put_text(line, len, front(s, room))
}

// However the input is cut into pieces, a line ends at the same byte, and the same is kept of it.
pub fn law_pieces()
    ensures { Pieces }
{}
