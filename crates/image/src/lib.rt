// The record's image: docs/IMAGE.md is its layout.
#![tactic(auto)]

ghost use Rattle.std.specs.Prelude.{ℕ, ◌+◌, ◌*◌, ◌≤◌, ◌≡◌, cond, List, [], ◌∷◌, length, eqb};
ghost use Rattle.token.specs.Bytes.{number_at, be_of};
ghost use Rattle.image.specs.Write.{each_of, flag_of, flags_of, row_of, tables_of, tries_of, session_of, pin_of, head_of, undo_of, cells_of, vault_of, image_of, image_length, Put};
ghost use Rattle.image.specs.Read.{bytes_at, flags_at, row_at, ranges_at, tables_at, tries_at, session_at, pin_at, pins_at, card_at, flags_ok, ranges_ok, tables_ok, session_ok, head_ok, image_ok, loaded_of};
ghost use Rattle.image.specs.Laws.{ReadBack, WrittenBack};

use model::{Card, Cells, PIN_BYTES, PINS, PinRow, Secret, Session, Tables, USERS, Undo, Vault};
use packet::{Hsn, Tsn};
use ranges::{Mbr, ROWS, Row};
use std::array;

pub const LENGTH: usize = 1188;

const VERSION: u8 = 1;

// The bytes of a range row and of a PIN, and of the parts that are made of them.
const ROW: usize = 21;

const PIN: usize = 1 + PIN_BYTES;

const TABLES: usize = RESETTABLE + 1;

const SESSION: usize = PROVED + PINS;

// The places in the tables and in the session.
const MBR: usize = 1 + ROW * ROWS;

const ENABLED: usize = MBR + 3;

const RESETTABLE: usize = ENABLED + PINS;

const PROVED: usize = 10;

// The places in the image.
const AT_MSID: usize = 11;

const AT_TABLES: usize = AT_MSID + PIN_BYTES;

const AT_TRIES: usize = AT_TABLES + TABLES;

const AT_SESSION: usize = AT_TRIES + PINS;

const AT_NEXT: usize = AT_SESSION + SESSION;

const AT_UNDO: usize = AT_NEXT + 4;

const AT_WAS: usize = AT_UNDO + 1;

const AT_LIVE: usize = AT_WAS + TABLES;

const AT_KEPT: usize = AT_LIVE + PIN * PINS;

// ---- reading

fn bytes_at(s: &[u8], p: usize) -> [u8; PIN_BYTES]
    requires { p + 32 ≤ length s.now }
    ensures { result ≡ bytes_at s.now p 32 }
{
    let mut l = [0; PIN_BYTES];
    l.copy_from_slice(&s[p..p + PIN_BYTES]);
    l
}

fn flags_at(s: &[u8], p: usize) -> [bool; PINS]
    requires { p + 13 ≤ length s.now }
    ensures { result ≡ flags_at s.now p }
{
    array::from_fn(|i| s[p + i] == 1)
}

#[tactic(auto, unfolding(crate::specs::Read::row_at))]
fn row_at(s: &[u8], p: usize) -> Row
    requires { p + 21 ≤ length s.now }
    ensures { result ≡ row_at s.now p }
{
    Row {
        start: token::number_at(s, p, 8),
        length: token::number_at(s, p + 8, 8),
        read_enabled: s[p + 16] == 1,
        write_enabled: s[p + 17] == 1,
        read_locked: s[p + 18] == 1,
        write_locked: s[p + 19] == 1,
        lock_on_program: s[p + 20] == 1,
    }
}

fn ranges_at(s: &[u8], p: usize) -> [Row; ROWS]
    requires { p + 105 ≤ length s.now }
    ensures { result ≡ ranges_at s.now p }
{
    array::from_fn(|i| row_at(s, p + ROW * i))
}

#[tactic(auto, unfolding(crate::specs::Read::tables_at))]
fn tables_at(s: &[u8], p: usize) -> Tables
    requires { p + 123 ≤ length s.now }
    ensures { result ≡ tables_at s.now p }
{
    Tables {
        active: s[p] == 1,
        rows: ranges_at(s, p + 1),
        mbr: Mbr {
            enable: s[p + MBR] == 1,
            done: s[p + MBR + 1] == 1,
            done_on_program: s[p + MBR + 2] == 1,
        },
        enabled: flags_at(s, p + ENABLED),
        resettable: s[p + RESETTABLE] == 1,
    }
}

fn tries_at(s: &[u8], p: usize) -> [PinRow; PINS]
    requires { p + 13 ≤ length s.now }
    ensures { result ≡ tries_at s.now p }
{
    array::from_fn(|i| PinRow { tries: s[p + i] })
}

// A number of four bytes.
fn short_at(s: &[u8], p: usize) -> u32
    requires { p + 4 ≤ length s.now }
    ensures { result ≡ number_at s.now p 4 }
{
    token::number_at(s, p, 4) as u32
}

#[tactic(auto, unfolding(crate::specs::Read::session_at))]
fn session_at(s: &[u8], p: usize) -> Session
    requires { p + 23 ≤ length s.now }
    ensures { result ≡ session_at s.now p }
{
    Session {
        live: s[p] == 1,
        locking: s[p + 1] == 1,
        tsn: Tsn(short_at(s, p + 2)),
        hsn: Hsn(short_at(s, p + 6)),
        proved: flags_at(s, p + PROVED),
    }
}

#[tactic(auto, unfolding(crate::specs::Read::pin_at))]
fn pin_at(s: &[u8], p: usize) -> Secret
    requires { p + 33 ≤ length s.now }
    ensures { result ≡ pin_at s.now p }
{
    Secret {
        bytes: bytes_at(s, p + 1),
        len: s[p],
    }
}

fn pins_at(s: &[u8], p: usize) -> [Secret; PINS]
    requires { p + 429 ≤ length s.now }
    ensures { result ≡ pins_at s.now p }
{
    array::from_fn(|i| pin_at(s, p + PIN * i))
}

#[tactic(auto, unfolding(crate::specs::Read::card_at))]
fn card_at(s: &[u8]) -> Card
    requires { length s.now ≡ image_length }
    ensures { result ≡ card_at s.now }
{
    Card {
        cells: Cells {
            n: token::number_at(s, 3, 8),
            msid: bytes_at(s, AT_MSID),
            tables: tables_at(s, AT_TABLES),
            pins: tries_at(s, AT_TRIES),
            session: session_at(s, AT_SESSION),
            next: Tsn(short_at(s, AT_NEXT)),
            undo: Undo {
                live: s[AT_UNDO] == 1,
                was: tables_at(s, AT_WAS),
            },
        },
        vault: Vault {
            live: pins_at(s, AT_LIVE),
            kept: pins_at(s, AT_KEPT),
        },
    }
}

// ---- which images are taken

// Each of n bytes from p on is 00 or 01.
fn flags_ok(s: &[u8], p: usize, n: usize) -> bool
    requires { p + n ≤ length s.now }
    ensures { result ≡ flags_ok s.now p n }
{
    s[p..p + n].iter().all(|b| *b <= 1)
}

fn ranges_ok(s: &[u8], p: usize) -> bool
    requires { p + 105 ≤ length s.now }
    ensures { result ≡ ranges_ok s.now p }
{
    (0..ROWS).all(|i| flags_ok(s, p + ROW * i + 16, 5))
}

#[tactic(auto, unfolding(crate::specs::Read::tables_ok))]
fn tables_ok(s: &[u8], p: usize) -> bool
    requires { p + 123 ≤ length s.now }
    ensures { result ≡ tables_ok s.now p }
{
    flags_ok(s, p, 1) && ranges_ok(s, p + 1) && flags_ok(s, p + MBR, 3 + PINS + 1)
}

#[tactic(auto, unfolding(crate::specs::Read::session_ok))]
fn session_ok(s: &[u8], p: usize) -> bool
    requires { p + 23 ≤ length s.now }
    ensures { result ≡ session_ok s.now p }
{
    flags_ok(s, p, 2) && flags_ok(s, p + PROVED, PINS)
}

// The length, the version and the counts.
#[tactic(auto, unfolding(crate::specs::Read::head_ok))]
fn head_ok(s: &[u8]) -> bool
    ensures { result ≡ head_ok s.now }
{
    s.len() == LENGTH && s[0] == VERSION && s[1] == (ROWS - 1) as u8 && s[2] == USERS
}

#[tactic(auto, using(crate::proofs::Taken::head_length), unfolding(crate::specs::Read::image_ok))]
fn image_ok(s: &[u8]) -> bool
    ensures { result ≡ image_ok s.now }
{
    head_ok(s)
        && tables_ok(s, AT_TABLES)
        && session_ok(s, AT_SESSION)
        && flags_ok(s, AT_UNDO, 1)
        && tables_ok(s, AT_WAS)
}

// The record that an image holds, where it is taken.
#[tactic(auto, using(crate::proofs::Taken::taken_length), unfolding(crate::specs::Read::loaded_of))]
pub fn read_image(s: &[u8]) -> Option<Card>
    ensures { result ≡ loaded_of s.now }
{
    if image_ok(s) { Some(card_at(s)) } else { None }
}

// ---- writing: each writer answers the place behind what it wrote

fn put_bytes(out: &mut [u8], at: usize, src: &[u8]) -> usize
    requires { at + length src.now ≤ length out.old }
    ensures { Put out.old at src.now (length src.now) result out.new }
{
    let end = at + src.len();
    out[at..end].copy_from_slice(src);
    end
}

fn put_byte(out: &mut [u8], at: usize, x: u8) -> usize
    requires { at + 1 ≤ length out.old }
    ensures { Put out.old at (x ∷ []) 1 result out.new }
{
    out[at] = x;
    at + 1
}

// The lowest n bytes of v.
fn put_number(out: &mut [u8], at: usize, n: usize, v: u64) -> usize
    requires { at + n ≤ length out.old }
    ensures { Put out.old at (be_of n v) n result out.new }
{
    let _ = token::put_number(out, at, n, v);
    at + n
}

// What the image has lists of: each value is so many bytes.
trait Part: Copy {
    ghost bytes: { Self → List ℕ };

    ghost size: { ℕ };

    fn put(self, out: &mut [u8], at: usize) -> usize
        requires { at + size ≤ length out.old }
        ensures { Put out.old at (bytes self) size result out.new };
}

// The parts of a list, one behind another.
fn put_each<T: Part>(out: &mut [u8], at: usize, l: &[T]) -> usize
    requires { at + T.size * length l.now ≤ length out.old }
    ensures { Put out.old at (each_of T.bytes l.now) (T.size * length l.now) result out.new }
{
    let mut p = at;
    for x in l {
        p = x.put(out, p);
    }
    p
}

impl Part for bool {
    ghost bytes = { flag_of };

    ghost size = { 1 };

    fn put(self, out: &mut [u8], at: usize) -> usize {
        put_byte(out, at, u8::from(self))
    }
}

impl Part for Row {
    ghost bytes = { row_of };

    ghost size = { 21 };

    #[tactic(auto, unfolding(crate::specs::Write::row_of))]
    fn put(self, out: &mut [u8], at: usize) -> usize {
        let flags = [
            self.read_enabled,
            self.write_enabled,
            self.read_locked,
            self.write_locked,
            self.lock_on_program,
        ];
        let a = put_number(out, at, 8, self.start);
        let b = put_number(out, a, 8, self.length);
        put_each(out, b, &flags)
    }
}

// Tries alone
impl Part for PinRow {
    ghost bytes = { tries_of };

    ghost size = { 1 };

    fn put(self, out: &mut [u8], at: usize) -> usize {
        put_byte(out, at, self.tries)
    }
}

impl Part for Secret {
    ghost bytes = { pin_of };

    ghost size = { 33 };

    #[tactic(auto, unfolding(crate::specs::Write::pin_of))]
    fn put(self, out: &mut [u8], at: usize) -> usize {
        let a = put_byte(out, at, self.len);
        put_bytes(out, a, &self.bytes)
    }
}

fn put_tables(out: &mut [u8], at: usize, t: Tables) -> usize
    requires { at + 123 ≤ length out.old }
    ensures { Put out.old at (tables_of t) 123 result out.new }
{
    let mbr = [t.mbr.enable, t.mbr.done, t.mbr.done_on_program];
    let a = t.active.put(out, at);
    let b = put_each(out, a, &t.rows);
    let c = put_each(out, b, &mbr);
    let d = put_each(out, c, &t.enabled);
    t.resettable.put(out, d)
}

fn put_session(out: &mut [u8], at: usize, x: Session) -> usize
    requires { at + 23 ≤ length out.old }
    ensures { Put out.old at (session_of x) 23 result out.new }
{
    let a = put_each(out, at, &[x.live, x.locking]);
    let b = put_number(out, a, 4, u64::from(x.tsn.0));
    let c = put_number(out, b, 4, u64::from(x.hsn.0));
    put_each(out, c, &x.proved)
}

// The version, the counts, N and the MSID.
fn put_head(out: &mut [u8], at: usize, n: u64, msid: [u8; PIN_BYTES]) -> usize
    requires { at + 43 ≤ length out.old }
    ensures { Put out.old at (head_of n msid) 43 result out.new }
{
    let a = put_bytes(out, at, &[VERSION, (ROWS - 1) as u8, USERS]);
    let b = put_number(out, a, 8, n);
    put_bytes(out, b, &msid)
}

fn put_undo(out: &mut [u8], at: usize, u: Undo) -> usize
    requires { at + 124 ≤ length out.old }
    ensures { Put out.old at (undo_of u) 124 result out.new }
{
    let a = u.live.put(out, at);
    put_tables(out, a, u.was)
}

fn put_cells(out: &mut [u8], at: usize, c: Cells) -> usize
    requires { at + 330 ≤ length out.old }
    ensures { Put out.old at (cells_of c) 330 result out.new }
{
    let a = put_head(out, at, c.n, c.msid);
    let b = put_tables(out, a, c.tables);
    let d = put_each(out, b, &c.pins);
    let e = put_session(out, d, c.session);
    let f = put_number(out, e, 4, u64::from(c.next.0));
    put_undo(out, f, c.undo)
}

fn put_vault(out: &mut [u8], at: usize, v: Vault) -> usize
    requires { at + 858 ≤ length out.old }
    ensures { Put out.old at (vault_of v) 858 result out.new }
{
    let a = put_each(out, at, &v.live);
    put_each(out, a, &v.kept)
}

// The record's image into a buffer of its length; into any other nothing. It answers whether: there is one way to refuse, and no value to give.
pub fn write_image(out: &mut [u8], card: Card) -> bool
    ensures answer { result ≡ eqb (length out.old) 1188 }
    ensures buffer { out.new ≡ cond (eqb (length out.old) 1188) (image_of card) out.old }
{
    if out.len() != LENGTH {
        return false;
    }
    let a = put_cells(out, 0, card.cells);
    put_vault(out, a, card.vault);
    true
}

// What was written has the one length, is taken, and is read back.
pub fn law_read_back()
    ensures { ReadBack }
{}

// Every image that is taken writes back to itself.
pub fn law_written_back()
    ensures { WrittenBack }
{}
