// The card as a static library for C and Rust: each function is that of `flamepocket`, with its clauses. include/flamepocket.h has each with its
// return values.
#![tactic(auto)]

ghost use Rattle.std.specs.Prelude.{◌≡◌, cond, length};
ghost use Rattle.model.specs.Step.{made, command, outcome_of, buffer_of, power, reset};
ghost use Rattle.image.specs.Read.{image_ok, card_at};
ghost use Rattle.flamepocket.specs.Library.{returned, stored, on_image, sound_of, media_on, made_on};

// How many bytes a record has.
#[unsafe(no_mangle)]
pub extern "C" fn flamepocket_record_length() -> usize
    ensures { result ≡ 1188 }
{
    flamepocket::flamepocket_record_length()
}

// A new record: 0, or 1 where N, the MSID or the room for the record is out of bounds.
#[unsafe(no_mangle)]
pub extern "C" fn flamepocket_factory(bytes: &mut [u8], n: u64, msid: &[u8]) -> usize
    ensures answer { result ≡ made_on (length bytes.old) (made n msid.now) }
    ensures image { bytes.new ≡ stored bytes.old (made n msid.now) }
{
    flamepocket::flamepocket_factory(bytes, n, msid)
}

// 0 where the record is sound, and else 1.
#[unsafe(no_mangle)]
pub extern "C" fn flamepocket_sound(bytes: &[u8]) -> usize
    ensures { result ≡ sound_of bytes.now }
{
    flamepocket::flamepocket_sound(bytes)
}

// A request: the count of answer bytes, or the number 1 to 6 by which it is turned away.
#[unsafe(no_mangle)]
pub extern "C" fn flamepocket_command(bytes: &mut [u8], request: &[u8], answer: &mut [u8]) -> usize
    ensures answer { result ≡ returned (on_image bytes.old (λ k. outcome_of (command k (length answer.old) request.now))) }
    ensures image { bytes.new ≡ stored bytes.old (on_image bytes.old (λ k. outcome_of (command k (length answer.old) request.now))) }
    ensures buffer { answer.new ≡ cond (image_ok bytes.old) (buffer_of (command (card_at bytes.old) (length answer.old) request.now) answer.old) answer.old }
{
    flamepocket::flamepocket_command(bytes, request, answer)
}

// A power cycle: 0, or 1.
#[unsafe(no_mangle)]
pub extern "C" fn flamepocket_power_cycle(bytes: &mut [u8]) -> usize
    ensures answer { result ≡ returned (on_image bytes.old (λ k. outcome_of (power k))) }
    ensures image { bytes.new ≡ stored bytes.old (on_image bytes.old (λ k. outcome_of (power k))) }
{
    flamepocket::flamepocket_power_cycle(bytes)
}

// TPER_RESET: 0, 1 or 7.
#[unsafe(no_mangle)]
pub extern "C" fn flamepocket_tper_reset(bytes: &mut [u8]) -> usize
    ensures answer { result ≡ returned (on_image bytes.old (λ k. outcome_of (reset k))) }
    ensures image { bytes.new ≡ stored bytes.old (on_image bytes.old (λ k. outcome_of (reset k))) }
{
    flamepocket::flamepocket_tper_reset(bytes)
}

// A media question, to read where write is 0 and else to write: 0 disk, 1 unsound, 2 shadow, 3 refused.
#[unsafe(no_mangle)]
pub extern "C" fn flamepocket_media(bytes: &[u8], write: u8, start: u64, count: u64) -> usize
    ensures { result ≡ media_on bytes.now write start count }
{
    flamepocket::flamepocket_media(bytes, write, start, count)
}
