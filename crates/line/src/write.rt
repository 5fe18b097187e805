// Bytes put into a buffer: as they are, as hex digits, or as the bytes that they say as hex digits. Each writer answers the place after them;
// where there is no room nothing is written and at comes back.
ghost use Rattle.std.specs.Prelude.{◌≡◌, true, ◌+◌, length, leb};
ghost use Rattle.token.specs.Write.{put_all};
ghost use Rattle.line.specs.Hex.{byte_of, digits_of, bytes_of};
ghost use Rattle.line.specs.Write.{put_end};

use crate::chars;

// Whether n bytes from at on lie within a buffer of size bytes.
fn has_room(size: usize, at: usize, n: usize) -> bool
    ensures { result ≡ leb (at + n) size }
{
    at <= size && n <= size - at
}

// The byte that two digits say; what is no digit counts as 0.
#[tactic(auto, unfolding(crate::specs::Hex::byte_of))]
fn byte(x: u8, y: u8) -> u8
    ensures { result ≡ byte_of x y }
{
    let high = chars::digit(x) % 16;
    let low = chars::digit(y) % 16;
    high * 16 + low
}

// As they are.
#[tactic(auto, unfolding(crate::specs::Write::put_end, token::specs::Write::put_all, token::specs::Bytes::over))]
pub(crate) fn plain(out: &mut [u8], at: usize, s: &[u8]) -> usize
    ensures answer { result ≡ put_end (length out.old) at s.now }
    ensures buffer { out.new ≡ put_all true out.old at s.now }
{
    if !has_room(out.len(), at, s.len()) {
        return at;
    }
    let end = at + s.len();
    out[at..end].copy_from_slice(s);
    end
}

// As hex digits.
pub(crate) fn spelled(out: &mut [u8], at: usize, s: &[u8]) -> usize
    ensures answer { result ≡ put_end (length out.old) at (digits_of s.now) }
    ensures buffer { out.new ≡ put_all true out.old at (digits_of s.now) }
{
    if !has_room(out.len(), at, 2 * s.len()) {
        return at;
    }
    let mut end = at;
    for b in s {
        let pair = [chars::letter(*b / 16), chars::letter(*b % 16)];
        end = plain(out, end, &pair);
    }
    end
}

// As the bytes that they say as hex digits.
pub(crate) fn meant(out: &mut [u8], at: usize, s: &[u8]) -> usize
    ensures answer { result ≡ put_end (length out.old) at (bytes_of s.now) }
    ensures buffer { out.new ≡ put_all true out.old at (bytes_of s.now) }
{
    let n = s.len() / 2;
    if !has_room(out.len(), at, n) {
        return at;
    }
    for i in 0..n {
        out[at + i] = byte(s[2 * i], s[2 * i + 1]);
    }
    at + n
}
