// The payload reader for C and Rust, by itself: `reader_c` exports it, and `rust/bench-reader` times it. The card reads payloads by the same call.
#![tactic(auto)]

ghost use Rattle.std.specs.Prelude.{◌≡◌};
ghost use Rattle.payload.specs.Payload.{payload_at};
ghost use Rattle.reader.specs.Reader.{kind_of, call_of};

use payload::Payload;

// The number of what stands in s from at on, and ends with s, for C: 0 broken, 1 a call, 2 end of session, 3 begin, 4 commit, 5 abandon.
// Of a call the object, the method and the place of its parameters stand in words afterwards; else they are as they were.
#[tactic(auto, unfolding(crate::specs::Reader::kind_of, crate::specs::Reader::call_of))]
pub fn flamepocket_read_payload(s: &[u8], at: usize, words: &mut [u64; 3]) -> usize
    ensures kind { result ≡ kind_of (payload_at s.now at) }
    ensures call { words.new ≡ call_of words.old (payload_at s.now at) }
{
    match payload::parse(s, at) {
        Payload::Broken => 0,
        Payload::Call {
            object,
            method,
            params,
        } => {
            words[0] = object;
            words[1] = method;
            words[2] = params as u64;
            1
        }
        Payload::EndSession => 2,
        Payload::Begin => 3,
        Payload::Commit => 4,
        Payload::Abandon => 5,
    }
}
