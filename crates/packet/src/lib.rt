// The envelope of a request or an answer: ComPacket, Packet and Subpacket, read and written.
#![tactic(auto)]

ghost use Rattle.std.specs.Prelude.{◌≡◌, ◌++◌, ◌+◌, ◌<◌, ◌≤◌, length, drop};
ghost use Rattle.token.specs.Bytes.{be_of, number_at, over};
ghost use Rattle.packet.specs.Envelope.{pad_of, opened_of, header, seal_end, seal_all};
ghost use Rattle.packet.specs.Laws.{ReadBack, Inside, Padded};
ghost use Rattle.packet.specs.Exact.{FieldsAsSaid};

use token::PutError;

// The card's number of a session. Not the host's: the two are types of their own, so that a swap does not compile.
#[derive(Clone, Copy)]
pub struct Tsn(pub u32);

// The host's number of a session.
#[derive(Clone, Copy)]
pub struct Hsn(pub u32);

// A packet that is opened: whose session it is, and where the payload stands.
#[derive(Clone, Copy)]
pub struct Packet {
    pub tsn: Tsn,
    pub hsn: Hsn,
    pub start: usize,
    pub len: usize,
}

// The pad bytes after n bytes.
#[tactic(auto, unfolding(crate::specs::Envelope::pad_of))]
fn pad(n: usize) -> usize
    ensures { (result ≡ pad_of n) × (result < 4) }
{
    (4 - n % 4) % 4
}

// A field of four bytes, and 0 where it is not there.
fn field(s: &[u8], at: usize) -> u32
    ensures { result ≡ number_at s.now at 4 }
{
    token::number_at(s, at, 4) as u32
}

// Reads the envelope of a request; none where it is broken. The fields are below 2^32 and the sums are made in 64 bits: none wraps.
#[tactic(auto, using(std::proofs::lemmas::Bool::Decides::nat_tests), unfolding(crate::specs::Envelope::sealed, crate::specs::Envelope::opened_of))]
pub fn open(s: &[u8]) -> Option<Packet>
    ensures { result ≡ opened_of s.now }
{
    let len = field(s, 52) as usize;
    let packet = field(s, 40) as usize;
    let com = field(s, 16) as usize;
    if token::number_at(s, 4, 2) != 0x1000
        || token::number_at(s, 6, 2) != 0
        || token::number_at(s, 50, 2) != 0
        || len < 1
        || packet != 12 + len + pad(len)
        || com != 24 + packet
        || s.len() < 20 + com
    {
        return None;
    }
    Some(Packet {
        tsn: Tsn(field(s, 20)),
        hsn: Hsn(field(s, 24)),
        start: 56,
        len,
    })
}

// The lowest k bytes of v, the highest first, from at on.
#[tactic(auto, using(token::proofs::Writes::writes))]
fn put_number(out: &mut [u8], at: usize, k: usize, v: usize)
    requires { at + k ≤ length out.old }
    ensures { out.new ≡ over out.old at (be_of k v) }
{
    let _ = token::put_number(out, at, k, v as u64);
}

// The 56 bytes before a payload of n bytes: all zero but for six fields.
fn put_header(out: &mut [u8], tsn: Tsn, hsn: Hsn, n: usize)
    requires { (56 ≤ length out.old) × (n < 0x100000000) }
    ensures { out.new ≡ header tsn.0 hsn.0 n ++ drop 56 out.old }
{
    let packet = 12 + n + pad(n);
    out[..56].fill(0);
    // ComPacket: ComID, Length
    put_number(out, 4, 2, 0x1000);
    put_number(out, 16, 4, 24 + packet);
    // Packet: TSN, HSN, Length
    put_number(out, 20, 4, tsn.0 as usize);
    put_number(out, 24, 4, hsn.0 as usize);
    put_number(out, 40, 4, packet);
    // Subpacket: Length
    put_number(out, 52, 4, n);
}

// Puts the envelope around the payload of n bytes that stands in out from byte 56 on.
#[tactic(auto, using(crate::proofs::Writes::seals), unfolding(crate::specs::Envelope::seal_end, crate::specs::Envelope::seal_all))]
pub fn seal(out: &mut [u8], tsn: Tsn, hsn: Hsn, n: usize) -> Result<usize, PutError>
    ensures answer { result ≡ seal_end (length out.old) n }
    ensures buffer { out.new ≡ seal_all out.old tsn.0 hsn.0 n }
{
    let p = pad(n);
    if n < 1 || 0xffffffff - 36 - p < n {
        return Err(PutError::Outside);
    }
    let end = 56 + n + p;
    if out.len() < end {
        return Err(PutError::Full);
    }
    put_header(out, tsn, hsn, n);
    out[56 + n..end].fill(0);
    Ok(end)
}

// What is written is read as the same TSN, HSN and payload.
pub fn law_read_back()
    ensures { ReadBack }
{}

// A packet that is accepted has all its bytes, the pad with them, inside the request.
pub fn law_inside()
    ensures { Inside }
{}

// There are 0 to 3 pad bytes, up to a multiple of 4.
pub fn law_pad()
    ensures { Padded }
{}

// The envelope field by field: exactly what is opened, and every byte that is written.
pub fn law_fields()
    ensures { FieldsAsSaid }
{}
