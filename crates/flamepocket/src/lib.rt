// The card as a library for C and Rust: the record is its image, a fixed count of bytes that the caller holds. `flamepocket_c` exports each
// function, and include/flamepocket.h has it with its return values. On any refusal image and answer buffer are as they were.
#![tactic(auto)]

ghost use Rattle.std.specs.Prelude.{◌≡◌, cond, length};
ghost use Rattle.model.specs.Step.{made, command, outcome_of, buffer_of, power, reset, media};
ghost use Rattle.image.specs.Read.{image_ok, card_at};
ghost use Rattle.flamepocket.specs.Library.{returned, stored, on_image, sound_of, ruling_of, media_on, made_on};

use image::LENGTH;
use model::Outcome;
use ranges::Verdict;

// How many bytes a record has.
pub fn flamepocket_record_length() -> usize
    ensures { result ≡ 1188 }
{
    LENGTH
}

// The number, or the count of answer bytes where it is 0, as C takes both; an answered request's record is stored.
#[tactic(auto, unfolding(crate::specs::Library::returned, crate::specs::Library::stored))]
fn store(bytes: &mut [u8], o: Outcome) -> usize
    ensures answer { result ≡ returned o }
    ensures image { bytes.new ≡ stored bytes.old o }
{
    if o.number != 0 {
        return usize::from(o.number);
    }
    image::write_image(bytes, o.card);
    o.count
}

// A new record: 0, or 1 where N, the MSID or the room for the record is out of bounds.
#[tactic(auto, unfolding(crate::specs::Library::made_on, crate::specs::Library::stored))]
pub fn flamepocket_factory(bytes: &mut [u8], n: u64, msid: &[u8]) -> usize
    ensures answer { result ≡ made_on (length bytes.old) (made n msid.now) }
    ensures image { bytes.new ≡ stored bytes.old (made n msid.now) }
{
    if bytes.len() != LENGTH {
        return 1;
    }
    store(bytes, record::factory(n, msid))
}

// 0 where the record is sound, and else 1.
#[tactic(auto, unfolding(image::specs::Read::loaded_of))]
pub fn flamepocket_sound(bytes: &[u8]) -> usize
    ensures { result ≡ sound_of bytes.now }
{
    match image::read_image(bytes) {
        Some(card) if record::sound(card) => 0,
        _ => 1,
    }
}

// A request: the count of answer bytes, or the number 1 to 6 by which it is turned away.
#[tactic(auto, unfolding(image::specs::Read::loaded_of, crate::specs::Library::on_image, crate::specs::Library::returned, crate::specs::Library::stored))]
pub fn flamepocket_command(bytes: &mut [u8], request: &[u8], answer: &mut [u8]) -> usize
    ensures answer { result ≡ returned (on_image bytes.old (λ k. outcome_of (command k (length answer.old) request.now))) }
    ensures image { bytes.new ≡ stored bytes.old (on_image bytes.old (λ k. outcome_of (command k (length answer.old) request.now))) }
    ensures buffer { answer.new ≡ cond (image_ok bytes.old) (buffer_of (command (card_at bytes.old) (length answer.old) request.now) answer.old) answer.old }
{
    let Some(card) = image::read_image(bytes) else {
        return 1;
    };
    store(bytes, card::command(card, request, answer))
}

// A power cycle: 0, or 1.
#[tactic(auto, unfolding(image::specs::Read::loaded_of, crate::specs::Library::on_image, crate::specs::Library::returned, crate::specs::Library::stored))]
pub fn flamepocket_power_cycle(bytes: &mut [u8]) -> usize
    ensures answer { result ≡ returned (on_image bytes.old (λ k. outcome_of (power k))) }
    ensures image { bytes.new ≡ stored bytes.old (on_image bytes.old (λ k. outcome_of (power k))) }
{
    let Some(card) = image::read_image(bytes) else {
        return 1;
    };
    store(bytes, card::power_cycle(card))
}

// TPER_RESET: 0, 1 or 7.
#[tactic(auto, unfolding(image::specs::Read::loaded_of, crate::specs::Library::on_image, crate::specs::Library::returned, crate::specs::Library::stored))]
pub fn flamepocket_tper_reset(bytes: &mut [u8]) -> usize
    ensures answer { result ≡ returned (on_image bytes.old (λ k. outcome_of (reset k))) }
    ensures image { bytes.new ≡ stored bytes.old (on_image bytes.old (λ k. outcome_of (reset k))) }
{
    let Some(card) = image::read_image(bytes) else {
        return 1;
    };
    store(bytes, card::tper_reset(card))
}

// A media question, to read where write is 0 and else to write: 0 disk, 1 unsound, 2 shadow, 3 refused.
#[tactic(auto, unfolding(image::specs::Read::loaded_of))]
pub fn flamepocket_media(bytes: &[u8], write: u8, start: u64, count: u64) -> usize
    ensures { result ≡ media_on bytes.now write start count }
{
    let Some(card) = image::read_image(bytes) else {
        return 1;
    };
    number_of(card::media(card, write != 0, start, count))
}

#[tactic(auto, unfolding(crate::specs::Library::ruling_of))]
fn number_of(r: Option<Verdict>) -> usize
    ensures { result ≡ ruling_of r }
{
    match r {
        None => 1,
        Some(Verdict::Disk) => 0,
        Some(Verdict::Shadow) => 2,
        Some(Verdict::Refused) => 3,
    }
}
