// The payload that answers a decision, written from byte 56 on, where the envelope is put around it.
#![tactic(auto)]

ghost use Rattle.std.specs.Prelude.{◌≡◌, cond, [], ◌∷◌, ◌+◌, ◌≤◌, length, leb};
ghost use Rattle.token.specs.Bytes.{over};
ghost use Rattle.token.specs.Write.{enc_int};
ghost use Rattle.tape.specs.Write.{enc_atom, enc_value};
ghost use Rattle.value.specs.Plain.{bytes, none};
ghost use Rattle.ranges.specs.Row.{row_at};
ghost use Rattle.model.specs.declared.Status.TheVariants as E;
ghost use Rattle.model.specs.declared.Decision.TheVariants as D;
ghost use Rattle.model.specs.Record.{tries_at, enabled_at};
ghost use Rattle.model.specs.Uids.{sync_session};
ghost use Rattle.model.specs.Answer.{status_number, flag, uid, one, two, resets, result_of, manager_call, pin_cell, range_cell, mbr_cell, cell, answer};
ghost use Rattle.answer.specs.Pieces.{Wrote, ending, calling, column, columns};

use model::{Cells, Decision, Object, Status};
use ranges::{Mbr, Row};

// Where a payload starts.
const START: usize = 56;

// An answer is at most this long, envelope and all.
const ROOM: usize = 2048;

const MANAGER: u64 = 0xff;

const SYNC_SESSION: u64 = 0xff03;

const CLOSE_SESSION: u64 = 0xff06;

// Get, by its last four bytes.
const GET: u32 = 0x16;

// ---- tokens; each is written at at, and the place after it comes back

fn put_byte(out: &mut [u8], at: usize, b: u8) -> usize
    requires { at + 1 ≤ length out.old }
    ensures { Wrote 1 out.old at (b ∷ []) result out.new }
{
    out[at] = b;
    at + 1
}

// The place after it is the one that the writer says; there is room.
fn put_int(out: &mut [u8], at: usize, v: u64) -> usize
    requires { at + 9 ≤ length out.old }
    ensures { Wrote 9 out.old at (enc_int v) result out.new }
{
    token::put_int(out, at, v).unwrap_or(at)
}

fn put_flag(out: &mut [u8], at: usize, on: bool) -> usize
    requires { at + 1 ≤ length out.old }
    ensures { Wrote 1 out.old at (enc_value (flag on)) result out.new }
{
    put_byte(out, at, u8::from(on))
}

// A UID as eight bytes.
fn put_uid(out: &mut [u8], at: usize, u: u64) -> usize
    requires { at + 9 ≤ length out.old }
    ensures { Wrote 9 out.old at (enc_atom (uid u)) result out.new }
{
    let a = put_byte(out, at, 0xa8);
    token::put_number(out, a, 8, u).unwrap_or(a)
}

// "{0} or {0, 3}, written ascending"
fn put_resets(out: &mut [u8], at: usize, program: bool) -> usize
    requires { at + 4 ≤ length out.old }
    ensures { Wrote 4 out.old at (enc_value (resets program)) result out.new }
{
    let a = put_byte(out, at, 0xf0);
    let b = put_byte(out, a, 0);
    let c = if program { put_byte(out, b, 3) } else { b };
    put_byte(out, c, 0xf1)
}

// ---- the cells of each object by their columns; each takes 34 bytes at the most

fn tries_at(c: Cells, r: usize) -> u8
    ensures { result ≡ tries_at c r }
{
    c.pins.get(r).map_or(0, |row| row.tries)
}

// "TryLimit is 5", Tries, "Persistence False"
fn put_pin_cell(out: &mut [u8], at: usize, c: Cells, row: usize, k: u8) -> usize
    requires { at + 9 ≤ length out.old }
    ensures { Wrote 9 out.old at (enc_value (pin_cell c row k)) result out.new }
{
    match k {
        5 => put_byte(out, at, 5),
        6 => put_int(out, at, u64::from(tries_at(c, row))),
        _ => put_flag(out, at, false),
    }
}

fn is_enabled(c: Cells, r: usize) -> bool
    ensures { result ≡ enabled_at c.tables r }
{
    let enabled = c.tables.enabled;
    enabled.get(r).copied().unwrap_or(false)
}

fn row_at(c: Cells, k: usize) -> Row
    ensures { result ≡ row_at c.tables.rows k }
{
    let rows = c.tables.rows;
    rows.get(k).copied().unwrap_or(Row {
        start: 0,
        length: 0,
        read_enabled: false,
        write_enabled: false,
        read_locked: false,
        write_locked: false,
        lock_on_program: false,
    })
}

fn put_range_cell(out: &mut [u8], at: usize, row: Row, k: u8) -> usize
    requires { at + 9 ≤ length out.old }
    ensures { Wrote 9 out.old at (enc_value (range_cell row k)) result out.new }
{
    match k {
        3 => put_int(out, at, row.start),
        4 => put_int(out, at, row.length),
        5 => put_flag(out, at, row.read_enabled),
        6 => put_flag(out, at, row.write_enabled),
        7 => put_flag(out, at, row.read_locked),
        8 => put_flag(out, at, row.write_locked),
        _ => put_resets(out, at, row.lock_on_program),
    }
}

fn put_mbr_cell(out: &mut [u8], at: usize, m: Mbr, k: u8) -> usize
    requires { at + 4 ≤ length out.old }
    ensures { Wrote 4 out.old at (enc_value (mbr_cell m k)) result out.new }
{
    match k {
        1 => put_flag(out, at, m.enable),
        2 => put_flag(out, at, m.done),
        _ => put_resets(out, at, m.done_on_program),
    }
}

fn put_msid(out: &mut [u8], at: usize, c: Cells) -> usize
    requires { at + 34 ≤ length out.old }
    ensures { Wrote 34 out.old at (enc_atom (bytes c.msid)) result out.new }
{
    token::put_bytes(out, at, &c.msid).unwrap_or(at)
}

#[tactic(auto, unfolding(model::specs::Answer::cell_past0))]
fn put_cell(out: &mut [u8], at: usize, c: Cells, o: Object, k: u8) -> usize
    requires { at + 34 ≤ length out.old }
    ensures { Wrote 34 out.old at (enc_value (cell c o k)) result out.new }
{
    // column 0 is the row's UID
    if k == 0 {
        return put_uid(out, at, access::uid_of(o));
    }
    match o {
        Object::PinSid => put_pin_cell(out, at, c, 0, k),
        Object::PinMsid => put_msid(out, at, c),
        Object::TperInfo => put_flag(out, at, c.tables.resettable),
        Object::SpAdmin => put_byte(out, at, 9),
        Object::SpLocking => put_byte(out, at, if c.tables.active { 9 } else { 8 }),
        Object::ThisSp => put_byte(out, at, 0),
        Object::Authority(r) => put_flag(out, at, is_enabled(c, usize::from(r))),
        Object::Pin(r) => put_pin_cell(out, at, c, usize::from(r), k),
        Object::Range(i) => put_range_cell(out, at, row_at(c, usize::from(i)), k),
        Object::MbrControl => put_mbr_cell(out, at, c.tables.mbr, k),
        Object::Nothing => put_byte(out, at, 0),
    }
}

// A column with its name, where the set has it.
fn put_column(out: &mut [u8], at: usize, set: u32, c: Cells, o: Object, k: u8) -> usize
    requires { at + 45 ≤ length out.old }
    ensures { Wrote 45 out.old at (column set c o k) result out.new }
{
    if !access::has_column(set, k) {
        return at;
    }
    let a = put_byte(out, at, 0xf2);
    let b = put_int(out, a, u64::from(k));
    let d = put_cell(out, b, c, o, k);
    put_byte(out, d, 0xf3)
}

// "Get leaves out columns not allowed and lists the rest ascending": the inner list, from first to last.
fn put_columns(out: &mut [u8], at: usize, c: Cells, o: Object, first: u8, last: u8) -> usize
    requires { at + 1000 ≤ length out.old }
    ensures { Wrote 902 out.old at (columns c o first last) result out.new }
{
    let allowed = access::look_up(c.session, o, GET);
    let mut p = put_byte(out, at, 0xf0);
    for k in first..=last {
        p = put_column(out, p, allowed.columns, c, o, k);
    }
    put_byte(out, p, 0xf1)
}

// ---- answers

// stays a function: a conversion from Status belongs to the crate that has Status.
#[tactic(auto, unfolding(model::specs::Answer::status_number))]
fn status_number(k: Status) -> u8
    ensures { result ≡ status_number k }
{
    match k {
        Status::Success => 0x00,
        Status::NotAuthorized => 0x01,
        Status::NoSessions => 0x07,
        Status::InvalidParameter => 0x0c,
        Status::LockedOut => 0x12,
        Status::Fail => 0x3f,
    }
}

// The result list's end, "F9, F0 status 00 00 F1".
fn put_ending(out: &mut [u8], at: usize, k: Status) -> usize
    requires { at + 7 ≤ length out.old }
    ensures { Wrote 7 out.old at (ending k) result out.new }
{
    let end = at + 7;
    out[at..end].copy_from_slice(&[0xf1, 0xf9, 0xf0, status_number(k), 0, 0, 0xf1]);
    end
}

// A call by the session manager, up to its list.
fn put_calling(out: &mut [u8], at: usize, method: u64) -> usize
    requires { at + 20 ≤ length out.old }
    ensures { Wrote 20 out.old at (calling method) result out.new }
{
    let a = put_byte(out, at, 0xf8);
    let b = put_uid(out, a, MANAGER);
    let c = put_uid(out, b, method);
    put_byte(out, c, 0xf0)
}

// A call by the session manager with two numbers.
fn put_two(out: &mut [u8], at: usize, method: u64, a: u32, b: u32) -> usize
    requires { at + 45 ≤ length out.old }
    ensures { Wrote 45 out.old at (manager_call method (two a b) E.Success) result out.new }
{
    let p = put_calling(out, at, method);
    let q = put_int(out, p, u64::from(a));
    let s = put_int(out, q, u64::from(b));
    put_ending(out, s, Status::Success)
}

// SyncSession with no numbers.
fn put_refused_start(out: &mut [u8], at: usize, k: Status) -> usize
    requires { at + 27 ≤ length out.old }
    ensures { Wrote 27 out.old at (manager_call sync_session none k) result out.new }
{
    let p = put_calling(out, at, SYNC_SESSION);
    put_ending(out, p, k)
}

// An empty result list and a status.
fn put_plain(out: &mut [u8], at: usize, k: Status) -> usize
    requires { at + 8 ≤ length out.old }
    ensures { Wrote 8 out.old at (result_of none k) result out.new }
{
    let p = put_byte(out, at, 0xf0);
    put_ending(out, p, k)
}

// SUCCESS with 0 or 1.
fn put_one(out: &mut [u8], at: usize, on: bool) -> usize
    requires { at + 9 ≤ length out.old }
    ensures { Wrote 9 out.old at (result_of (one (flag on)) E.Success) result out.new }
{
    let p = put_byte(out, at, 0xf0);
    let q = put_flag(out, p, on);
    put_ending(out, q, Status::Success)
}

// A control token and how it went.
fn put_control(out: &mut [u8], at: usize, code: u8, how: u8) -> usize
    requires { at + 2 ≤ length out.old }
    ensures { Wrote 2 out.old at (code ∷ how ∷ []) result out.new }
{
    let p = put_byte(out, at, code);
    put_byte(out, p, how)
}

// A Get's answer.
fn put_told(out: &mut [u8], at: usize, c: Cells, o: Object, first: u8, last: u8) -> usize
    requires { at + 1001 ≤ length out.old }
    ensures { Wrote 910 out.old at (answer c (D.Told o first last)) result out.new }
{
    let p = put_byte(out, at, 0xf0);
    let q = put_columns(out, p, c, o, first, last);
    put_ending(out, q, Status::Success)
}

// The payload, where there is room; the place after it.
#[tactic(auto, unfolding(model::specs::Answer::answer))]
fn put_answer(out: &mut [u8], c: Cells, d: Decision) -> usize
    requires { 2048 ≤ length out.old }
    ensures { Wrote 910 out.old 56 (answer c d) result out.new }
{
    match d {
        Decision::Refuse(k) => put_plain(out, START, k),
        Decision::NotStarted(k) => put_refused_start(out, START, k),
        Decision::Missed(_) => put_refused_start(out, START, Status::NotAuthorized),
        Decision::Started { hsn, .. } => put_two(out, START, SYNC_SESSION, hsn.0, c.next.0),
        Decision::Denied => put_one(out, START, false),
        Decision::Mistaken(_) => put_one(out, START, false),
        Decision::Proved(_) => put_one(out, START, true),
        Decision::Told {
            object,
            first,
            last,
        } => put_told(out, START, c, object, first, last),
        Decision::Done(_) => put_plain(out, START, Status::Success),
        Decision::Began => put_control(out, START, 0xfb, 0),
        Decision::BeganAlready => put_control(out, START, 0xfb, 1),
        Decision::Committed | Decision::Abandoned => put_control(out, START, 0xfc, 0),
        Decision::NoneOpen => put_control(out, START, 0xfc, 1),
        Decision::Ended => put_byte(out, START, 0xfa),
        Decision::Broke => put_two(out, START, CLOSE_SESSION, c.session.hsn.0, c.session.tsn.0),
    }
}

// Writes the payload that answers a decision from byte 56 on, and says how long it is. In less room than an answer may need, nothing is written.
pub fn answer(out: &mut [u8], c: Cells, d: Decision) -> usize
    ensures count { result ≡ cond (leb 2048 (length out.old)) (length (answer c d)) 0 }
    ensures buffer { out.new ≡ cond (leb 2048 (length out.old)) (over out.old 56 (answer c d)) out.old }
{
    if out.len() < ROOM {
        return 0;
    }
    put_answer(out, c, d) - START
}
