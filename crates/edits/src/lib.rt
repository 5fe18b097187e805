// A Set's values: whether they are good for the object, and the change that they ask for.
#![tactic(auto)]

ghost use Rattle.std.specs.Prelude.{◌≡◌};
ghost use Rattle.params.specs.Columns.{column_at};
ghost use Rattle.edits.specs.Kinds.{range_kinds, mbr_kinds};
ghost use Rattle.model.specs.Judge.{is_number, number_in, is_flag, flag_in, is_resets, resets_in, is_pin, pin_change, edit_in, mbr_edit_in, values_ok, change_in};

use item::Slot;
use model::{Cells, Change, MbrEdit, Object, PIN_BYTES};
use params::{Columns, Resets};
use ranges::Edit;

// The column's value, or absent.
fn column(t: Columns, k: usize) -> Slot
    ensures { result ≡ column_at t k }
{
    t.rows.get(k).copied().unwrap_or(Slot::Absent)
}

// ---- kinds of values; a column that is left out is good, and keeps its value

#[tactic(auto, unfolding(model::specs::Judge::is_number))]
fn is_number(t: Columns, k: usize) -> bool
    ensures { result ≡ is_number (column_at t k) }
{
    matches!(column(t, k), Slot::Absent | Slot::Int(_))
}

#[tactic(auto, unfolding(model::specs::Judge::number_in))]
fn number_in(t: Columns, k: usize) -> Option<u64>
    ensures { result ≡ number_in (column_at t k) }
{
    match column(t, k) {
        Slot::Int(v) => Some(v),
        _ => None,
    }
}

#[tactic(auto, unfolding(model::specs::Judge::is_flag))]
fn is_flag(t: Columns, k: usize) -> bool
    ensures { result ≡ is_flag (column_at t k) }
{
    match column(t, k) {
        Slot::Absent => true,
        Slot::Int(v) => v < 2,
        _ => false,
    }
}

#[tactic(auto, unfolding(model::specs::Judge::flag_in))]
fn flag_in(t: Columns, k: usize) -> Option<bool>
    ensures { result ≡ flag_in (column_at t k) }
{
    match column(t, k) {
        Slot::Int(v) => Some(v == 1),
        _ => None,
    }
}

// "LockOnReset and DoneOnReset hold {0} or {0, 3}"
#[tactic(auto, unfolding(model::specs::Judge::is_resets, model::specs::Judge::allowed_set))]
fn is_resets(s: &[u8], t: Columns, k: usize) -> bool
    ensures { result ≡ is_resets s.now (column_at t k) }
{
    match column(t, k) {
        Slot::Absent => true,
        Slot::List(p) => params::reset_set(s, p).is_some(),
        _ => false,
    }
}

#[tactic(auto, unfolding(model::specs::Judge::resets_in, model::specs::Judge::with_program))]
fn resets_in(s: &[u8], t: Columns, k: usize) -> Option<bool>
    ensures { result ≡ resets_in s.now (column_at t k) }
{
    match column(t, k) {
        Slot::List(p) => Some(matches!(params::reset_set(s, p), Some(Resets::Program))),
        _ => None,
    }
}

// "a stored one 0 to 32"
#[tactic(auto, unfolding(model::specs::Judge::is_pin))]
fn is_pin(t: Columns, k: usize) -> bool
    ensures { result ≡ is_pin (column_at t k) }
{
    match column(t, k) {
        Slot::Absent => true,
        Slot::Bytes { len, .. } => len <= PIN_BYTES,
        _ => false,
    }
}

#[tactic(auto, unfolding(model::specs::Judge::pin_change))]
fn pin_change(row: usize, t: Columns, k: usize) -> Change
    ensures { result ≡ pin_change row (column_at t k) }
{
    match column(t, k) {
        Slot::Bytes { at, len } => Change::PutPin { row, at, len },
        _ => Change::Nothing,
    }
}

// ---- what a whole Set asks of a row

fn edit_in(s: &[u8], t: Columns) -> Edit
    ensures { result ≡ edit_in s.now t }
{
    Edit {
        start: number_in(t, 3),
        length: number_in(t, 4),
        read_enabled: flag_in(t, 5),
        write_enabled: flag_in(t, 6),
        read_locked: flag_in(t, 7),
        write_locked: flag_in(t, 8),
        lock_on_program: resets_in(s, t, 9),
    }
}

fn mbr_edit_in(s: &[u8], t: Columns) -> MbrEdit
    ensures { result ≡ mbr_edit_in s.now t }
{
    MbrEdit {
        enable: flag_in(t, 1),
        done: flag_in(t, 2),
        done_on_program: resets_in(s, t, 3),
    }
}

// The kinds of a range's values; the first that is wrong decides.
fn range_kinds(s: &[u8], t: Columns) -> bool
    ensures { result ≡ range_kinds s.now t }
{
    is_number(t, 3)
        && is_number(t, 4)
        && is_flag(t, 5)
        && is_flag(t, 6)
        && is_flag(t, 7)
        && is_flag(t, 8)
        && is_resets(s, t, 9)
}

fn mbr_kinds(s: &[u8], t: Columns) -> bool
    ensures { result ≡ mbr_kinds s.now t }
{
    is_flag(t, 1) && is_flag(t, 2) && is_resets(s, t, 3)
}

// The values are good for the object, "judged on the row as it would stand".
#[tactic(auto, unfolding(model::specs::Judge::values_ok))]
pub fn values_ok(c: Cells, s: &[u8], t: Columns, o: Object) -> bool
    ensures { result ≡ values_ok c s.now t o }
{
    match o {
        Object::PinSid | Object::Pin(_) => is_pin(t, 3),
        Object::TperInfo => is_flag(t, 8),
        Object::Authority(_) => is_flag(t, 5),
        Object::Range(k) => {
            range_kinds(s, t)
                && ranges::set(c.tables.rows, usize::from(k), edit_in(s, t), c.n).is_some()
        }
        Object::MbrControl => mbr_kinds(s, t),
        _ => true,
    }
}

// The change that the values ask for.
#[tactic(auto, unfolding(model::specs::Judge::change_in, model::specs::Judge::flag_change))]
pub fn change_in(s: &[u8], t: Columns, o: Object) -> Change
    ensures { result ≡ change_in s.now t o }
{
    match o {
        Object::PinSid => pin_change(0, t, 3),
        Object::TperInfo => flag_in(t, 8).map_or(Change::Nothing, Change::PutResettable),
        Object::Authority(r) => flag_in(t, 5).map_or(
            Change::Nothing,
            |on| Change::PutEnabled {
                row: usize::from(r),
                on,
            },
        ),
        Object::Pin(r) => pin_change(usize::from(r), t, 3),
        Object::Range(k) => Change::PutRange {
            row: usize::from(k),
            edit: edit_in(s, t),
        },
        Object::MbrControl => Change::PutMbr(mbr_edit_in(s, t)),
        _ => Change::Nothing,
    }
}
