// Whether a record is sound, clause by clause, and the record as it comes from the factory.
#![tactic(auto)]

ghost use Rattle.std.specs.Prelude.{◌≡◌, length};
ghost use Rattle.ranges.specs.Decides.{all};
ghost use Rattle.model.specs.Record.{no_card};
ghost use Rattle.ranges.specs.Row.{row_count, row_at};
ghost use Rattle.record.specs.Flags.{none_from};
ghost use Rattle.model.specs.Sound.{size_ok, tables_ok, tries_ok, session_ok, secret_ok, secrets_ok, blank_row, blank_mbr, blank_tables, blank_secrets, undo_ok, sound};
ghost use Rattle.model.specs.Step.{made};

use model::{
    Card, Cells, Outcome, PIN_BYTES, PINS, PinRow, Secret, Session, TRY_LIMIT, Tables, Vault,
};
use ranges::{Mbr, ROWS, Row};

// The disk's size in sectors.
const LEAST: u64 = 262144;

const MOST: u64 = 1099511627776;

fn size_ok(n: u64) -> bool
    ensures { result ≡ size_ok n }
{
    LEAST <= n && n <= MOST
}

// The rows fit, the global one has no numbers of its own, and SID is enabled.
#[tactic(auto, using(crate::proofs::Fitted::fits_told), unfolding(model::specs::Sound::tables_ok))]
fn tables_ok(n: u64, t: Tables) -> bool
    ensures { result ≡ tables_ok n t }
{
    let global = t.rows[0];
    t.enabled[0] && global.start == 0 && global.length == 0 && ranges::fits(t.rows, n)
}

// "Tries ≤ 5"
fn tries_ok(pins: [PinRow; PINS]) -> bool
    ensures { result ≡ tries_ok pins }
{
    pins.iter().all(|row| row.tries <= TRY_LIMIT)
}

// None of these flags is set from row first on.
fn none_from(flags: [bool; PINS], first: usize) -> bool
    ensures { result ≡ none_from flags first }
{
    flags.iter().skip(first).all(|on| !*on)
}

// A session that is open, on these tables; where none is, its cells are empty.
#[tactic(auto, using(crate::proofs::Known::known_locking), unfolding(model::specs::Sound::session_ok))]
fn session_ok(t: Tables, s: Session) -> bool
    ensures { result ≡ session_ok t s }
{
    if s.live && s.locking {
        // SID is not known to the Locking SP
        s.tsn.0 != 0 && t.active && !s.proved[0]
    } else if s.live {
        // and nobody else to the Admin SP
        s.tsn.0 != 0 && none_from(s.proved, 1)
    } else {
        !s.locking && s.tsn.0 == 0 && s.hsn.0 == 0 && none_from(s.proved, 0)
    }
}

// A PIN of 0 to 32 bytes, and zeros after them. The loop has no second way out, so that the machine takes many bytes in a step.
fn secret_ok(x: Secret) -> bool
    ensures { result ≡ secret_ok x }
{
    let Some(past) = x.bytes.get(usize::from(x.len)..) else {
        return false;
    };
    let mut rest = 0;
    for b in past {
        rest |= *b;
    }
    rest == 0
}

fn secrets_ok(l: [Secret; PINS]) -> bool
    ensures { result ≡ secrets_ok l }
{
    l.iter().all(|x| secret_ok(*x))
}

// ---- nothing is kept where no transaction is open

#[tactic(auto, unfolding(model::specs::Sound::blank_row))]
fn blank_row(r: Row) -> bool
    ensures { result ≡ blank_row r }
{
    r.start == 0
        && r.length == 0
        && !r.read_enabled
        && !r.write_enabled
        && !r.read_locked
        && !r.write_locked
        && !r.lock_on_program
}

#[tactic(auto, unfolding(model::specs::Sound::blank_mbr))]
fn blank_mbr(m: Mbr) -> bool
    ensures { result ≡ blank_mbr m }
{
    !m.enable && !m.done && !m.done_on_program
}

fn blank_rows(rows: [Row; ROWS]) -> bool
    ensures { result ≡ all (λ i. blank_row (row_at rows i)) row_count }
{
    rows.iter().all(|row| blank_row(*row))
}

#[tactic(auto, unfolding(model::specs::Sound::blank_tables))]
fn blank_tables(t: Tables) -> bool
    ensures { result ≡ blank_tables t }
{
    !t.active && !t.resettable && blank_mbr(t.mbr) && blank_rows(t.rows) && none_from(t.enabled, 0)
}

fn blank_secrets(l: [Secret; PINS]) -> bool
    ensures { result ≡ blank_secrets l }
{
    l.iter().all(|x| x.len == 0)
}

// The rollback copies: sound too where a transaction is open, and empty where none is.
#[tactic(auto, unfolding(model::specs::Sound::undo_ok))]
fn undo_ok(c: Cells, v: Vault) -> bool
    ensures { result ≡ undo_ok c v }
{
    let was = c.undo.was;
    if c.undo.live {
        c.session.live && tables_ok(c.n, was) && session_ok(was, c.session)
    } else {
        blank_tables(was) && blank_secrets(v.kept)
    }
}

// Whether the record is sound: every clause.
#[tactic(auto, unfolding(model::specs::Sound::sound))]
pub fn sound(card: Card) -> bool
    ensures { result ≡ sound card }
{
    let c = card.cells;
    let v = card.vault;
    size_ok(c.n)
        && tables_ok(c.n, c.tables)
        && tries_ok(c.pins)
        && c.next.0 != 0
        && session_ok(c.tables, c.session)
        && secrets_ok(v.live)
        && secrets_ok(v.kept)
        && undo_ok(c, v)
}

// The MSID's bytes.
fn msid_of(msid: &[u8]) -> [u8; PIN_BYTES]
    requires { length msid.now ≡ 32 }
    ensures { result ≡ msid.now }
{
    let mut bytes = [0; PIN_BYTES];
    bytes.copy_from_slice(msid);
    bytes
}

fn refused() -> Outcome
    ensures { result ≡ record { number = 1; count = 0; card = no_card } }
{
    let card = fresh::factory_card(0, [0; PIN_BYTES]);
    Outcome {
        number: 1,
        count: 0,
        card: card,
    }
}

// The record as it comes from the factory: number 1 where N or the MSID is out of bounds.
pub fn factory(n: u64, msid: &[u8]) -> Outcome
    ensures { result ≡ made n msid.now }
{
    if size_ok(n) {
        if msid.len() == PIN_BYTES {
            let bytes = msid_of(msid);
            let card = fresh::factory_card(n, bytes);
            return Outcome {
                number: 0,
                count: 0,
                card: card,
            };
        }
    }
    refused()
}
