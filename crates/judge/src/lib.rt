// What is decided of a request, in document 01's order of checks. No PIN is seen here: where one must be compared, that is said, with what
// follows either way.
#![tactic(auto)]

ghost use Rattle.std.specs.Prelude.{ℕ, ◌<◌, ◌≡◌, not, cond, List, leb, ltb};
ghost use Rattle.ranges.specs.Decides.{imp};
ghost use Rattle.value.specs.Read.{values_at};
ghost use Rattle.params.specs.Columns.{column_count, free};
ghost use Rattle.model.specs.declared.Decision.TheVariants as D;
ghost use Rattle.model.specs.declared.Judged.TheVariants.{Settled};
ghost use Rattle.model.specs.Uids.{set_method};
ghost use Rattle.model.specs.Access.{has_column, last_column};
ghost use Rattle.access.specs.Rows.{TableSays};
ghost use Rattle.model.specs.Record.{try_limit, pin_bytes, tries_at, enabled_at};
ghost use Rattle.model.specs.Judge.{place_of, count_of, judge_who, known, signer, judge_start, judge_manager, judge_proof, bound_of, judge_get, at_given, judge_set, judge_bare, revert_of, activate_on, judge_method};
ghost use Rattle.model.specs.Step.{judge_session};
ghost use Rattle.judge.specs.Asked.{asked_of, start_ends, proof_ends, start_on};

use access::Found;
use item::Slot;
use model::{
    Cells, Change, Decision, Judged, Object, PIN_BYTES, PINS, Status, TRY_LIMIT, Tables, Who,
};
use packet::Hsn;
use params::{Block, COLUMNS, Columns, Offence, Proof, Start};
use payload::Payload;

// The session manager, and its one method.
const MANAGER: u64 = 0xff;

const START_SESSION: u64 = 0xff02;

const SP_ADMIN: u64 = 0x0000020500000001;

const SP_LOCKING: u64 = 0x0000020500000002;

// The methods by their last four bytes.
const GET: u32 = 0x16;

const SET: u32 = 0x17;

const AUTHENTICATE: u32 = 0x1c;

const REVERT: u32 = 0x202;

const ACTIVATE: u32 = 0x203;

// ---- PINs: "class or disabled authority; Tries = 5; PIN differs"

// How the checks of an authority end; at the last the PIN of a row must be compared.
#[derive(Clone, Copy)]
pub enum Asked {
    Barred,
    Full,
    Anybody,
    Compare { row: usize, at: usize, len: usize },
}

// The place and the count of the bytes that are given: "an omitted challenge is an empty one".
#[tactic(auto, unfolding(model::specs::Judge::place_of, model::specs::Judge::count_of))]
fn span_of(x: Slot) -> (usize, usize)
    ensures { result ≡ (place_of x, count_of x) }
{
    match x {
        Slot::Bytes { at, len } => (at, len),
        _ => (0, 0),
    }
}

// No row past the last is enabled.
fn is_enabled(t: Tables, r: usize) -> bool
    ensures { result ≡ enabled_at t r }
{
    t.enabled.get(r).copied().unwrap_or(false)
}

// "Tries = 5" is not reached.
fn may_try(c: Cells, r: usize) -> bool
    ensures { result ≡ ltb (tries_at c r) try_limit }
{
    c.pins.get(r).map_or(0, |row| row.tries) < TRY_LIMIT
}

// Who is nobody needs no PIN; a class has none.
#[tactic(auto, unfolding(crate::specs::Asked::asked_of))]
fn ask(c: Cells, who: Who, x: Slot) -> Asked
    ensures { result ≡ asked_of c who x }
{
    match who {
        Who::Anybody => Asked::Anybody,
        Who::Row(row) => {
            if !is_enabled(c.tables, row) {
                Asked::Barred
            } else if !may_try(c, row) {
                Asked::Full
            } else {
                let (at, len) = span_of(x);
                Asked::Compare { row, at, len }
            }
        }
        _ => Asked::Barred,
    }
}

// No "unknown authority".
#[tactic(auto, unfolding(model::specs::Judge::known))]
fn is_known(who: Who) -> bool
    ensures { result ≡ known who }
{
    !matches!(who, Who::Unknown)
}

#[tactic(auto, unfolding(params::specs::Columns::free))]
fn left_out(x: Slot) -> bool
    ensures { result ≡ free x }
{
    matches!(x, Slot::Absent)
}

// No "challenge over 32 bytes".
fn fits_pin(x: Slot) -> bool
    ensures { result ≡ leb (count_of x) pin_bytes }
{
    span_of(x).1 <= PIN_BYTES
}

// ---- StartSession

// Who signs: nobody where no authority is given.
#[tactic(auto, unfolding(model::specs::Judge::signer, params::specs::Names::uid_of))]
fn signer_of(s: &[u8], locking: bool, x: Slot) -> Who
    ensures { result ≡ signer s.now locking x }
{
    match x {
        Slot::Absent => Who::Anybody,
        Slot::Bytes { at, len } => access::who_in(locking, token::number_at(s, at, len)),
        _ => Who::Unknown,
    }
}

// No "challenge without authority".
fn signed(challenge: Slot, authority: Slot) -> bool
    ensures { result ≡ imp (free authority) (free challenge) }
{
    !left_out(authority) || left_out(challenge)
}

fn not_started(k: Status) -> Judged
    ensures { result ≡ Settled (D.NotStarted k) }
{
    Judged::Settled(Decision::NotStarted(k))
}

// How a start ends with the authority that signs.
#[tactic(auto, unfolding(crate::specs::Asked::turned), using(crate::proofs::Turns::who_asked))]
fn start_by(c: Cells, locking: bool, hsn: Hsn, who: Who, challenge: Slot) -> Judged
    ensures { result ≡ judge_who c (start_ends locking hsn) who challenge }
{
    match ask(c, who, challenge) {
        Asked::Barred => not_started(Status::NotAuthorized),
        Asked::Full => not_started(Status::LockedOut),
        Asked::Anybody => Judged::Settled(Decision::Started {
            locking,
            hsn,
            who: Who::Anybody,
        }),
        Asked::Compare { row, at, len } => Judged::Compare {
            row,
            at,
            len,
            equal: Decision::Started {
                locking,
                hsn,
                who: Who::Row(row),
            },
            differs: Decision::Missed(row),
        },
    }
}

// On an SP that can be opened: "Write not 1, challenge without authority, unknown authority, challenge over 32 bytes, 0C".
#[tactic(auto, unfolding(crate::specs::Asked::start_on, model::specs::Judge::need))]
fn start_on(c: Cells, s: &[u8], locking: bool, t: Start) -> Judged
    ensures { result ≡ start_on c s.now locking t.hsn t.write t.challenge t.authority }
{
    if t.write != 1 || !signed(t.challenge, t.authority) {
        return not_started(Status::InvalidParameter);
    }
    let who = signer_of(s, locking, t.authority);
    if !is_known(who) || !fits_pin(t.challenge) {
        return not_started(Status::InvalidParameter);
    }
    start_by(c, locking, t.hsn, who, t.challenge)
}

// "shape, unknown SP, Locking SP inactive"
#[tactic(auto, unfolding(model::specs::Judge::judge_start, model::specs::Judge::need), using(crate::proofs::Starts::on_locking, crate::proofs::Starts::on_admin))]
fn judge_start(c: Cells, s: &[u8], t: Option<Start>) -> Judged
    ensures { result ≡ judge_start c s.now t }
{
    let Some(t) = t else {
        return not_started(Status::InvalidParameter);
    };
    match t.sp {
        SP_LOCKING if c.tables.active => start_on(c, s, true, t),
        SP_ADMIN => start_on(c, s, false, t),
        _ => not_started(Status::InvalidParameter),
    }
}

// A call on 0, 0: "Any other call on 0, 0: status 01", then "session open, 07".
#[tactic(auto, unfolding(model::specs::Judge::judge_manager, model::specs::Judge::need))]
pub fn judge_manager(c: Cells, s: &[u8], object: u64, method: u64, at: usize) -> Judged
    ensures { result ≡ judge_manager c s.now object method (values_at s.now 15 at) }
{
    if object != MANAGER || method != START_SESSION {
        return refuse(Status::NotAuthorized);
    }
    if c.session.live {
        return not_started(Status::NoSessions);
    }
    judge_start(c, s, params::start_session(s, at))
}

// ---- methods in the session

fn refuse(k: Status) -> Judged
    ensures { result ≡ Settled (D.Refuse k) }
{
    Judged::Settled(Decision::Refuse(k))
}

// How an Authenticate ends: "class, disabled and wrong answer SUCCESS with 0, right with 1".
// Stays beside `start_by`: each end is another decision, and four closures in place of the two matches are no plainer.
#[tactic(auto, unfolding(crate::specs::Asked::turned), using(crate::proofs::Turns::who_asked))]
fn prove_by(c: Cells, who: Who, proof: Slot) -> Judged
    ensures { result ≡ judge_who c proof_ends who proof }
{
    match ask(c, who, proof) {
        Asked::Barred => Judged::Settled(Decision::Denied),
        Asked::Full => refuse(Status::LockedOut),
        Asked::Anybody => Judged::Settled(Decision::Proved(Who::Anybody)),
        Asked::Compare { row, at, len } => Judged::Compare {
            row,
            at,
            len,
            equal: Decision::Proved(Who::Row(row)),
            differs: Decision::Mistaken(row),
        },
    }
}

// Authenticate: "same order from the unknown authority on".
#[tactic(auto, unfolding(model::specs::Judge::judge_proof, model::specs::Judge::need))]
fn judge_proof(c: Cells, p: Option<Proof>) -> Judged
    ensures { (s : List ℕ) → result ≡ judge_proof c s p }
{
    let Some(p) = p else {
        return refuse(Status::InvalidParameter);
    };
    let who = access::who_in(c.session.locking, p.authority);
    if !is_known(who) || !fits_pin(p.proof) {
        return refuse(Status::InvalidParameter);
    }
    prove_by(c, who, p.proof)
}

// A column, or z where it is left out.
#[tactic(auto, unfolding(model::specs::Judge::bound_of))]
fn bound_of(z: u8, x: Slot) -> u64
    ensures { result ≡ bound_of z x }
{
    match x {
        Slot::Int(v) => v,
        _ => u64::from(z),
    }
}

// Get: "either left out meaning first or last"; "unknown column, start column above end column (0C)".
#[tactic(auto, unfolding(model::specs::Judge::judge_get), using(crate::proofs::Blocks::block_past, crate::proofs::Blocks::block_turned, crate::proofs::Blocks::block_told))]
fn judge_get(o: Object, b: Option<Block>) -> Judged
    ensures { result ≡ judge_get o b }
{
    let Some(b) = b else {
        return refuse(Status::InvalidParameter);
    };
    let known = access::last_column(o);
    let first = bound_of(0, b.start);
    let last = bound_of(known, b.end);
    // a start past the last known column is above the end too
    if u64::from(known) < last || last < first {
        return refuse(Status::InvalidParameter);
    }
    Judged::Settled(Decision::Told {
        object: o,
        first: first as u8,
        last: last as u8,
    })
}

// The known columns of an object as a set.
#[tactic(auto, using(crate::proofs::Known::last_small))]
fn known_columns(o: Object) -> u32
    ensures { (k : ℕ) → has_column result k ≡ leb k (last_column o) }
{
    let last = access::last_column(o);
    (1u32 << (last + 1)) - 1
}

// Where the column is given, the set has it.
fn column_in(set: u32, k: usize, x: Slot) -> bool
    requires { k < column_count }
    ensures { result ≡ imp (not (free x)) (has_column set k) }
{
    left_out(x) || access::has_column(set, k as u8)
}

// The set has every column that is given.
fn given_in(set: u32, t: Columns) -> bool
    ensures { result ≡ at_given (has_column set) t }
{
    (0..COLUMNS).all(|k| column_in(set, k, t.rows[k]))
}

// Set: "shape, repeated or unknown column (0C); columns not allowed (01); values, their types too (0C)".
#[tactic(auto, unfolding(model::specs::Judge::judge_set, model::specs::Judge::need))]
fn judge_set(c: Cells, s: &[u8], o: Object, t: Result<Columns, Offence>, found: Found) -> Judged
    requires { TableSays c.session o set_method found }
    ensures { result ≡ judge_set c s.now o t }
{
    let Ok(t) = t else {
        return refuse(Status::InvalidParameter);
    };
    let known = known_columns(o);
    if !given_in(known, t) {
        return refuse(Status::InvalidParameter); // unknown column
    }
    if !given_in(found.columns, t) {
        return refuse(Status::NotAuthorized); // columns not allowed
    }
    if !edits::values_ok(c, s, t, o) {
        return refuse(Status::InvalidParameter); // values
    }
    Judged::Settled(Decision::Done(edits::change_in(s, t, o)))
}

// Activate, Revert, RevertSP: no parameters, allowed, "then FAIL in a transaction".
#[tactic(auto, unfolding(model::specs::Judge::judge_bare, model::specs::Judge::need))]
fn judge_bare(c: Cells, o: Object, m: u32, found: Found, bare: bool, x: Change) -> Judged
    requires { TableSays c.session o m found }
    ensures { result ≡ judge_bare c o m bare x }
{
    if !bare {
        return refuse(Status::InvalidParameter);
    }
    if !found.held {
        return refuse(Status::NotAuthorized); // not allowed
    }
    if c.undo.live {
        return refuse(Status::Fail);
    }
    Judged::Settled(Decision::Done(x))
}

// What a Revert of the SP's row does; no other row has one.
#[tactic(auto, unfolding(model::specs::Judge::revert_of))]
fn revert_of(o: Object) -> Change
    ensures { result ≡ revert_of o }
{
    match o {
        Object::SpAdmin => Change::RevertAdmin,
        Object::SpLocking => Change::RevertLocking,
        _ => Change::Nothing,
    }
}

// "Activate ..; again, it does nothing".
#[tactic(auto, unfolding(model::specs::Judge::activate_on))]
fn activate_on(t: Tables) -> Change
    ensures { result ≡ activate_on t }
{
    if t.active {
        Change::Nothing
    } else {
        Change::Activate
    }
}

// A method in the session: "Checks: row; ..".
#[tactic(auto, unfolding(model::specs::Judge::judge_method, model::specs::Judge::need))]
fn judge_method(c: Cells, s: &[u8], o: Object, m: u32, at: usize) -> Judged
    ensures { result ≡ judge_method c s.now o m (values_at s.now 15 at) }
{
    let found = access::look_up(c.session, o, m);
    if !found.listed {
        return refuse(Status::NotAuthorized); // no row
    }
    match m {
        GET => judge_get(o, params::get(s, at)),
        SET => judge_set(c, s, o, params::set(s, at), found),
        AUTHENTICATE => judge_proof(c, params::authenticate(s, at)),
        ACTIVATE => judge_bare(c, o, m, found, params::none(s, at), activate_on(c.tables)),
        REVERT => judge_bare(c, o, m, found, params::none(s, at), revert_of(o)),
        _ => judge_bare(c, o, m, found, params::none(s, at), Change::RevertSp),
    }
}

// "FC is answered FC 00, or FC 01 if none is open".
fn if_open(live: bool, d: Decision) -> Judged
    ensures { result ≡ Settled (cond live d D.NoneOpen) }
{
    Judged::Settled(if live { d } else { Decision::NoneOpen })
}

// A payload in the open session.
#[tactic(auto, unfolding(model::specs::Step::judge_session))]
pub fn judge_session(c: Cells, s: &[u8], p: Payload) -> Judged
    ensures { result ≡ judge_session c s.now p }
{
    match p {
        Payload::Call {
            object,
            method,
            params,
        } => {
            let o = access::object_in(c.session.locking, object);
            judge_method(c, s, o, access::method_of(method), params)
        }
        Payload::EndSession => Judged::Settled(Decision::Ended),
        Payload::Begin if c.undo.live => Judged::Settled(Decision::BeganAlready),
        Payload::Begin => Judged::Settled(Decision::Began),
        Payload::Commit => if_open(c.undo.live, Decision::Committed),
        Payload::Abandon => if_open(c.undo.live, Decision::Abandoned),
        Payload::Broken => Judged::Settled(Decision::Broke),
    }
}
