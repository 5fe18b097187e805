// The payload reader as a static library for C and Rust: the function is that of `reader`, with its clauses.
#![tactic(auto)]

ghost use Rattle.std.specs.Prelude.{◌≡◌};
ghost use Rattle.payload.specs.Payload.{payload_at};
ghost use Rattle.reader.specs.Reader.{kind_of, call_of};

// The number of what stands in s from at on, and ends with s: 0 broken, 1 a call, 2 end of session, 3 begin, 4 commit, 5 abandon.
// Of a call the object, the method and the place of its parameters stand in words afterwards; else they are as they were.
#[unsafe(no_mangle)]
pub extern "C" fn flamepocket_read_payload(s: &[u8], at: usize, words: &mut [u64; 3]) -> usize
    ensures kind { result ≡ kind_of (payload_at s.now at) }
    ensures call { words.new ≡ call_of words.old (payload_at s.now at) }
{
    reader::flamepocket_read_payload(s, at, words)
}
