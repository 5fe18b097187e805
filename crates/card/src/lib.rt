// The card: command bytes in, answer bytes and the changed record out; the resets and the media question.
#![tactic(auto)]

ghost use Rattle.std.specs.Prelude.{◌≡◌, ◌++◌, ◌≤◌, length, drop};
ghost use Rattle.std.specs.Result.{result_unwrap_or};
ghost use Rattle.model.specs.Step.{judged, turned, hear_manager, is_manager, is_session, broke, framed, reply_to, command, outcome_of, buffer_of, reset_to, power, reset, media};
ghost use Rattle.packet.specs.Envelope.{seal_end, seal_all};
ghost use Rattle.card.specs.Hear.{hear_at};

use model::{Card, Cells, Decision, Judged, Outcome, Session};
use packet::{Hsn, Packet, Tsn};
use payload::Payload;
use ranges::Verdict;

// "An answer never exceeds 2,048 bytes", and neither does a request.
const MOST: usize = 2048;

// A request turned away by number changes nothing.
#[tactic(auto, unfolding(model::specs::Step::reply_to))]
fn turned_away(card: Card, number: u8) -> Outcome
    ensures { result ≡ outcome_of (reply_to card (turned number)) }
{
    Outcome {
        number,
        count: 0,
        card,
    }
}

#[tactic(auto, unfolding(model::specs::Step::broke))]
fn is_broke(d: Decision) -> bool
    ensures { result ≡ broke d }
{
    matches!(d, Decision::Broke)
}

// Puts the envelope around the payload of n bytes, and says how long the whole is.
fn frame(answer: &mut [u8], tsn: Tsn, hsn: Hsn, n: usize) -> usize
    ensures count { result ≡ result_unwrap_or (seal_end (length answer.old) n) 0 }
    ensures buffer { answer.new ≡ seal_all answer.old tsn.0 hsn.0 n }
{
    packet::seal(answer, tsn, hsn, n).unwrap_or(0)
}

// The whole answer, envelope and all: "a CloseSession call on 0, 0; else an answer carries its request's TSN and HSN".
// stays a slice with its length required: with `first_chunk_mut` the four `requires` go, but the proof of `command` did not close.
fn write_answer(answer: &mut [u8], packet: Packet, c: Cells, d: Decision) -> usize
    requires { 2048 ≤ length answer.old }
    ensures count { result ≡ length (framed c packet.tsn packet.hsn d) }
    ensures buffer { answer.new ≡ framed c packet.tsn packet.hsn d ++ drop (length (framed c packet.tsn packet.hsn d)) answer.old }
{
    let n = answer::answer(answer, c, d);
    if is_broke(d) {
        return frame(answer, Tsn(0), Hsn(0), n);
    }
    frame(answer, packet.tsn, packet.hsn, n)
}

// A request that is judged: the PIN is compared where one must be, the answer written, and the decision carried out.
#[tactic(auto, unfolding(model::specs::Step::reply_to))]
fn settle(card: Card, s: &[u8], answer: &mut [u8], packet: Packet, j: Judged) -> Outcome
    requires { 2048 ≤ length answer.old }
    ensures outcome { result ≡ outcome_of (reply_to card (judged packet.tsn packet.hsn s.now j)) }
    ensures buffer { answer.new ≡ buffer_of (reply_to card (judged packet.tsn packet.hsn s.now j)) answer.old }
{
    let c = card.cells;
    let d = vault::decided(card.vault, s, j);
    let count = write_answer(answer, packet, c, d);
    let cells = apply::apply(c, d);
    let vault = vault::obey(card.vault, c.msid, c.undo.live, s, d);
    Outcome {
        number: 0,
        count,
        card: Card { cells, vault },
    }
}

// On 0, 0: a call, or number 6.
#[tactic(auto, unfolding(model::specs::Step::hear_manager, model::specs::Step::reply_to))]
fn hear_manager(card: Card, s: &[u8], answer: &mut [u8], packet: Packet, p: Payload) -> Outcome
    requires { 2048 ≤ length answer.old }
    ensures outcome { result ≡ outcome_of (reply_to card (hear_manager card.cells packet.tsn packet.hsn s.now p)) }
    ensures buffer { answer.new ≡ buffer_of (reply_to card (hear_manager card.cells packet.tsn packet.hsn s.now p)) answer.old }
{
    let Payload::Call {
        object,
        method,
        params,
    } = p
    else {
        return turned_away(card, 6);
    };
    let j = judge::judge_manager(card.cells, s, object, method, params);
    settle(card, s, answer, packet, j)
}

fn is_manager(packet: Packet) -> bool
    ensures { result ≡ is_manager packet.tsn packet.hsn }
{
    packet.tsn.0 == 0 && packet.hsn.0 == 0
}

fn is_session(x: Session, packet: Packet) -> bool
    ensures { result ≡ is_session x packet.tsn packet.hsn }
{
    x.live && x.tsn.0 == packet.tsn.0 && x.hsn.0 == packet.hsn.0
}

// A packet whose envelope is good; its payload reaches to the end of s.
#[tactic(auto, unfolding(model::specs::Step::reply_to))]
fn hear(card: Card, s: &[u8], answer: &mut [u8], packet: Packet) -> Outcome
    requires { 2048 ≤ length answer.old }
    ensures outcome { result ≡ outcome_of (reply_to card (hear_at card.cells packet.tsn packet.hsn s.now packet.start)) }
    ensures buffer { answer.new ≡ buffer_of (reply_to card (hear_at card.cells packet.tsn packet.hsn s.now packet.start)) answer.old }
{
    let p = payload::parse(s, packet.start);
    if is_manager(packet) {
        return hear_manager(card, s, answer, packet, p);
    }
    if is_session(card.cells.session, packet) {
        let j = judge::judge_session(card.cells, s, p);
        return settle(card, s, answer, packet, j);
    }
    turned_away(card, 5)
}

// A request: the lowest number that applies, or the answer and the record after it.
#[tactic(auto, unfolding(model::specs::Step::heard, model::specs::Step::hear_packet, model::specs::Step::reply_to), using(crate::proofs::Opened::inside))]
pub fn command(card: Card, request: &[u8], answer: &mut [u8]) -> Outcome
    ensures outcome { result ≡ outcome_of (command card (length answer.old) request.now) }
    ensures buffer { answer.new ≡ buffer_of (command card (length answer.old) request.now) answer.old }
{
    if !record::sound(card) {
        return turned_away(card, 1);
    }
    if answer.len() < MOST {
        return turned_away(card, 2);
    }
    if MOST < request.len() {
        return turned_away(card, 3);
    }
    let Some(packet) = packet::open(request) else {
        return turned_away(card, 4);
    };
    let end = packet.start + packet.len;
    hear(card, &request[..end], answer, packet)
}

// With these cells, and an open transaction's PINs given up.
fn reset_to(card: Card, cells: Cells) -> Outcome
    ensures { result ≡ record { number = 0; count = 0; card = reset_to card cells } }
{
    let vault = vault::given_up(card.vault, card.cells.undo.live);
    Outcome {
        number: 0,
        count: 0,
        card: Card { cells, vault },
    }
}

// A power cycle.
#[tactic(auto, unfolding(model::specs::Step::power, model::specs::Step::reply_to))]
pub fn power_cycle(card: Card) -> Outcome
    ensures { result ≡ outcome_of (power card) }
{
    if record::sound(card) {
        reset_to(card, apply::power_cycle(card.cells))
    } else {
        turned_away(card, 1)
    }
}

// TPER_RESET: number 7 where it is disabled in the cells from before an open transaction.
#[tactic(auto, unfolding(model::specs::Step::reset, model::specs::Step::reply_to))]
pub fn tper_reset(card: Card) -> Outcome
    ensures { result ≡ outcome_of (reset card) }
{
    if !record::sound(card) {
        turned_away(card, 1)
    } else if !apply::settled_tables(card.cells).resettable {
        turned_away(card, 7)
    } else {
        reset_to(card, apply::tper_reset(card.cells))
    }
}

// A media question: by the cells from before an open transaction.
#[tactic(auto, unfolding(model::specs::Step::media))]
pub fn media(card: Card, write: bool, start: u64, count: u64) -> Option<Verdict>
    ensures { result ≡ media card write start count }
{
    if !record::sound(card) {
        return None;
    }
    let t = apply::settled_tables(card.cells);
    let verdict = ranges::media(t.rows, t.mbr, t.active, card.cells.n, write, start, count);
    Some(verdict)
}
