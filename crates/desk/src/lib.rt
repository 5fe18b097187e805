// The simulator's desk: a line in, the answer's text and the card in hand out. The card is the record's image, and it is asked
// through the library's own functions alone.
#![tactic(auto)]

pub mod cut;

ghost use Rattle.std.specs.Prelude.{◌≡◌, true, false, ◌∷◌, ◌++◌, ◌+◌, ◌≤◌, length};
ghost use Rattle.line.specs.Number.{decimal_of};
ghost use Rattle.line.specs.Write.{hex_text, bytes_at};
ghost use Rattle.model.specs.Step.{made, outcome_of, power as Step·power, reset as Step·reset};
ghost use Rattle.flamepocket.specs.Library.{on_image, media_on};
ghost use Rattle.desk.specs.Texts.{why_text, no_card, verdict_text};
ghost use Rattle.desk.specs.Desk.{new_card, commanded, numbered, loaded, direction, answer_to, Roomy, long_text, turn_of, turn_in, Texted, Turned};

use line::{Line, Why};

// What comes of a line: whether a card is in hand, and how long the text is; a line that is passed over has none.
// The flag stays beside an image that the caller holds: its bytes are lent, with a card in hand or not.
#[derive(Clone, Copy)]
pub struct After {
    pub there: bool,
    pub count: usize,
}

// A card's image.
type Image = [u8; 1188];

// Room for the longest text: up to 20 digits, a blank, and 2,048 bytes in hex.
type Text = [u8; 4117];

// ---- texts, each at the front of out

fn say(out: &mut Text, s: &[u8]) -> usize
    requires { length s.now ≤ length out.old }
    ensures { Texted out.old s.now result out.new }
{
    line::put_text(out, 0, s)
}

fn say_number(out: &mut Text, v: usize) -> usize
    ensures { Texted out.old (decimal_of v) result out.new }
{
    line::put_decimal(out, 0, v as u64)
}

fn say_hex(out: &mut Text, s: &[u8]) -> usize
    requires { length (hex_text s.now) ≤ length out.old }
    ensures { Texted out.old (hex_text s.now) result out.new }
{
    line::put_hex(out, 0, s)
}

// A number, a blank, and bytes.
fn say_reply(out: &mut Text, number: usize, s: &[u8]) -> usize
    requires { 21 + length (hex_text s.now) ≤ length out.old }
    ensures { Texted out.old (decimal_of number ++ (32 ∷ hex_text s.now)) result out.new }
{
    let a = line::put_decimal(out, 0, number as u64);
    let b = line::put_text(out, a, b" ");
    line::put_hex(out, b, s)
}

#[tactic(auto, unfolding(crate::specs::Texts::why_text))]
fn say_why(out: &mut Text, w: Why) -> usize
    ensures { Texted out.old (why_text w) result out.new }
{
    match w {
        Why::Word => say(out, b"? unknown word"),
        Why::Few => say(out, b"? too few words"),
        Why::Many => say(out, b"? too many words"),
        Why::Number => say(out, b"? not a number"),
        Why::Large => say(out, b"? number too large"),
        Why::Hex => say(out, b"? not hex"),
        Why::Odd => say(out, b"? odd hex"),
        Why::Room => say(out, b"? room over 65536"),
    }
}

// By the number that a media question brings.
// stays a number: the library's own functions are the ones that C calls
#[tactic(auto, unfolding(crate::specs::Texts::verdict_text))]
fn say_verdict(out: &mut Text, r: usize) -> usize
    ensures { Texted out.old (verdict_text r) result out.new }
{
    match r {
        0 => say(out, b"disk"),
        2 => say(out, b"shadow"),
        3 => say(out, b"refused"),
        _ => say(out, b"1"),
    }
}

// Zeros, for the bytes of the longest line and for the longest answer that can be asked for.
fn zeros<const N: usize>() -> [u8; N]
    ensures { N ≡ length result }
{
    [0; N]
}

// ---- each kind of line
// image, there and out stay three parameters: a struct of two borrowed arrays would have a clause for each field's last value, and be no plainer.
// The bound on a line stays a clause of four: a struct with a ghost field for one fact is no shorter.

// A text of count bytes, with a card in hand.
fn in_hand(count: usize) -> After
    ensures { result ≡ record { there = true; count = count } }
{
    After { there: true, count }
}

// A request, with the answer's buffer.
fn ask(image: &mut Image, q: &[u8], answer: &mut [u8], out: &mut Text) -> After
    ensures { Turned (commanded image.old (length answer.old) q.now) out.old result image.new out.new }
{
    let r = flamepocket::flamepocket_command(image, q, answer);
    if r < 60 {
        return in_hand(say_reply(out, r, b""));
    }
    in_hand(say_reply(out, 0, &answer[..r]))
}

// A request that the line's digits say.
fn command(image: &mut Image, l: &[u8], room: usize, at: usize, len: usize, out: &mut Text) -> After
    requires { (length l.now ≤ 32768) × (room ≤ 65536) }
    ensures { Turned (commanded image.old room (bytes_at l.now at len)) out.old result image.new out.new }
{
    let mut bytes: [u8; 16384] = zeros();
    let n = line::unhex(&mut bytes, l, at, len);
    let mut answer: [u8; 65536] = zeros();
    ask(image, &bytes[..n], &mut answer[..room], out)
}

// A new card.
fn make(image: &mut Image, there: bool, n: u64, msid: &[u8], out: &mut Text) -> After
    ensures { Turned (new_card there image.old (made n msid.now)) out.old result image.new out.new }
{
    let r = flamepocket::flamepocket_factory(image, n, msid);
    After {
        there: there || r == 0,
        count: say_number(out, r),
    }
}

// With the MSID that the line's digits say.
fn new(
    image: &mut Image,
    there: bool,
    l: &[u8],
    n: u64,
    at: usize,
    len: usize,
    out: &mut Text,
) -> After
    requires { length l.now ≤ 32768 }
    ensures { Turned (new_card there image.old (made n (bytes_at l.now at len))) out.old result image.new out.new }
{
    let mut bytes: [u8; 16384] = zeros();
    let m = line::unhex(&mut bytes, l, at, len);
    make(image, there, n, &bytes[..m], out)
}

// The card of an image that the line's digits say, where it is sound.
fn load(image: &mut Image, there: bool, l: &[u8], at: usize, len: usize, out: &mut Text) -> After
    requires { length l.now ≤ 32768 }
    ensures { Turned (loaded there image.old (bytes_at l.now at len)) out.old result image.new out.new }
{
    let mut bytes: [u8; 16384] = zeros();
    let m = line::unhex(&mut bytes, l, at, len);
    if flamepocket::flamepocket_sound(&bytes[..m]) != 0 {
        let count = say(out, b"1");
        return After { there, count };
    }
    line::unhex(image, l, at, len);
    in_hand(say(out, b"0"))
}

fn power(image: &mut Image, out: &mut Text) -> After
    ensures { Turned (numbered image.old (on_image image.old (λ k. outcome_of (Step·power k)))) out.old result image.new out.new }
{
    let r = flamepocket::flamepocket_power_cycle(image);
    in_hand(say_number(out, r))
}

fn reset(image: &mut Image, out: &mut Text) -> After
    ensures { Turned (numbered image.old (on_image image.old (λ k. outcome_of (Step·reset k)))) out.old result image.new out.new }
{
    let r = flamepocket::flamepocket_tper_reset(image);
    in_hand(say_number(out, r))
}

fn media(image: &Image, write: bool, start: u64, count: u64, out: &mut Text) -> usize
    ensures { Texted out.old (verdict_text (media_on image.now (direction write) start count)) result out.new }
{
    let r = flamepocket::flamepocket_media(image, u8::from(write), start, count);
    say_verdict(out, r)
}

fn no_card(out: &mut Text) -> After
    ensures { (result.there ≡ false) × Texted out.old no_card result.count out.new }
{
    let count = say(out, b"? no card");
    After {
        there: false,
        count,
    }
}

// By what the line says; before there is a card, every question to it is answered so.
// stays an if in each arm: under one guard for all of them the arms are reached on two ways, and each proof splits
fn answer(image: &mut Image, there: bool, l: &[u8], q: Line, out: &mut Text) -> After
    requires { (length l.now ≤ 32768) × Roomy q }
    ensures { Turned (answer_to there image.old l.now q) out.old result image.new out.new }
{
    match q {
        Line::Pass => After { there, count: 0 },
        Line::New { n, at, len } => new(image, there, l, n, at, len, out),
        Line::Command { room, at, len } => {
            if there {
                command(image, l, room, at, len, out)
            } else {
                no_card(out)
            }
        }
        Line::Power => {
            if there {
                power(image, out)
            } else {
                no_card(out)
            }
        }
        Line::Reset => {
            if there {
                reset(image, out)
            } else {
                no_card(out)
            }
        }
        Line::Media {
            write,
            start,
            count,
        } => {
            if there {
                in_hand(media(image, write, start, count, out))
            } else {
                no_card(out)
            }
        }
        Line::Image => {
            if there {
                in_hand(say_hex(out, image))
            } else {
                no_card(out)
            }
        }
        Line::Load { at, len } => load(image, there, l, at, len, out),
    }
}

// A line that is too long is not read, but a remark stays one.
fn too_long(there: bool, l: &[u8], out: &mut Text) -> After
    ensures { (result.there ≡ there) × Texted out.old (long_text l.now) result.count out.new }
{
    if line::is_remark(l) {
        return After { there, count: 0 };
    }
    let count = say(out, b"? line too long");
    After { there, count }
}

fn hear(image: &mut Image, there: bool, l: &[u8], out: &mut Text) -> After
    ensures { Turned (turn_of there image.old l.now) out.old result image.new out.new }
{
    if 32768 < l.len() {
        return too_long(there, l, out);
    }
    match line::read(l) {
        Ok(q) => answer(image, there, l, q, out),
        Err(w) => {
            let count = say_why(out, w);
            After { there, count }
        }
    }
}

// A line to the card in hand, if there is one: the text to the front of out, and the card afterwards in image.
pub fn turn(image: &mut [u8], there: bool, l: &[u8], out: &mut [u8]) -> After
    ensures { Turned (turn_in (length out.old) there image.old l.now) out.old result image.new out.new }
{
    let Some(image) = image.as_mut_array() else {
        return After { there, count: 0 };
    };
    let Some(out) = out.first_chunk_mut() else {
        return After { there, count: 0 };
    };
    hear(image, there, l, out)
}
