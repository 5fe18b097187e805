// What a UID names, and who may do what: the access rows are one fixed table, searched for each call.
#![tactic(auto)]

ghost use Rattle.std.specs.Prelude.{◌≡◌, ◌<◌, ◌+◌, ◌-◌, true, false, cond, Some, None};
ghost use Rattle.token.specs.Bytes.{within};
ghost use Rattle.model.specs.Record.{admin_count, proved_at};
ghost use Rattle.model.specs.Uids.{method_of, nth, object_in, who_in, uid_of};
ghost use Rattle.model.specs.Access.{access_rows, kind_of, self_of, any_proved, holds, has_column, last_column};
ghost use Rattle.access.specs.Rows.{row_past, with_row, TableSays};

use model::{ADMINS, Access, Object, PINS, Session, USERS, Who};
use ranges::ROWS;

// ---- what a UID names

// 00 00 00 06 and the method's four bytes
const METHODS: u64 = 0x0000000600000000;

const THIS_SP: u64 = 0x0000000000000001;

const SP_ADMIN: u64 = 0x0000020500000001;

const SP_LOCKING: u64 = 0x0000020500000002;

const PIN_SID: u64 = 0x0000000b00000001;

const PIN_MSID: u64 = 0x0000000b00008402;

const TPER_INFO: u64 = 0x0000020100030001;

const ANYBODY: u64 = 0x0000000900000001;

const CLASS_ADMINS: u64 = 0x0000000900000002;

const SID: u64 = 0x0000000900000006;

const CLASS_USERS: u64 = 0x0000000900030000;

// Admin k and User k, and their C_PIN rows, are k past these
const ADMIN: u64 = 0x0000000900010000;

const USER: u64 = 0x0000000900030000;

const ADMIN_PIN: u64 = 0x0000000b00010000;

const USER_PIN: u64 = 0x0000000b00030000;

const GLOBAL_RANGE: u64 = 0x0000080200000001;

// range k is k past this
const RANGE: u64 = 0x0000080200030000;

const MBR_CONTROL: u64 = 0x0000080300000001;

// Which method a UID names, by its last four bytes; 0 is none, and stays a number, as the rows have it.
#[tactic(auto, unfolding(model::specs::Uids::method_of, token::specs::Bytes::within))]
pub fn method_of(uid: u64) -> u32
    ensures { result ≡ method_of uid }
{
    if uid < METHODS {
        return 0;
    }
    u32::try_from(uid - METHODS).unwrap_or(0)
}

// The k that a UID is past base, where it is from 1 to count.
#[tactic(auto, unfolding(token::specs::Bytes::within))]
fn past(base: u64, count: u8, uid: u64) -> Option<u8>
    ensures { result ≡ nth base count uid Some None }
{
    if uid <= base || u64::from(count) < uid - base {
        return None;
    }
    Some((uid - base) as u8)
}

// The row that a UID is past admin or past user: an admin's or a user's.
fn row_past(admin: u64, user: u64, uid: u64) -> Option<u8>
    ensures { result ≡ row_past admin user uid Some None }
{
    if let Some(a) = past(admin, ADMINS, uid) {
        return Some(a);
    }
    let u = past(user, USERS, uid)?;
    Some(ADMINS + u)
}

// What a UID names in the Admin SP.
#[tactic(auto, unfolding(model::specs::Uids::object_in))]
fn object_in_admin(uid: u64) -> Object
    ensures { result ≡ object_in false uid }
{
    match uid {
        THIS_SP => Object::ThisSp,
        PIN_SID => Object::PinSid,
        PIN_MSID => Object::PinMsid,
        TPER_INFO => Object::TperInfo,
        SP_ADMIN => Object::SpAdmin,
        SP_LOCKING => Object::SpLocking,
        _ => Object::Nothing,
    }
}

// What a UID names in the Locking SP.
#[tactic(auto, unfolding(model::specs::Uids::object_in))]
fn object_in_locking(uid: u64) -> Object
    ensures { result ≡ object_in true uid }
{
    if uid == THIS_SP {
        return Object::ThisSp;
    }
    if let Some(authority) = row_past(ADMIN, USER, uid) {
        return Object::Authority(authority);
    }
    if let Some(pin) = row_past(ADMIN_PIN, USER_PIN, uid) {
        return Object::Pin(pin);
    }
    if uid == GLOBAL_RANGE {
        return Object::Range(0);
    }
    if let Some(range) = past(RANGE, (ROWS - 1) as u8, uid) {
        return Object::Range(range);
    }
    if uid == MBR_CONTROL {
        return Object::MbrControl;
    }
    Object::Nothing
}

// What a UID names in a session's SP.
pub fn object_in(locking: bool, uid: u64) -> Object
    ensures { result ≡ object_in locking uid }
{
    if locking {
        object_in_locking(uid)
    } else {
        object_in_admin(uid)
    }
}

// Who a UID names in the Admin SP.
#[tactic(auto, unfolding(model::specs::Uids::who_in))]
fn who_in_admin(uid: u64) -> Who
    ensures { result ≡ who_in false uid }
{
    match uid {
        ANYBODY => Who::Anybody,
        CLASS_ADMINS => Who::Class,
        SID => Who::Row(0),
        _ => Who::Unknown,
    }
}

// Who a UID names in the Locking SP.
#[tactic(auto, unfolding(model::specs::Uids::who_in))]
fn who_in_locking(uid: u64) -> Who
    ensures { result ≡ who_in true uid }
{
    if uid == ANYBODY {
        return Who::Anybody;
    }
    if uid == CLASS_ADMINS || uid == CLASS_USERS {
        return Who::Class;
    }
    match row_past(ADMIN, USER, uid) {
        Some(row) => Who::Row(usize::from(row)),
        None => Who::Unknown,
    }
}

// Who a UID names in an SP.
pub fn who_in(locking: bool, uid: u64) -> Who
    ensures { result ≡ who_in locking uid }
{
    if locking {
        who_in_locking(uid)
    } else {
        who_in_admin(uid)
    }
}

// Whether a row is an admin's.
#[tactic(auto, unfolding(token::specs::Bytes::within))]
fn is_admin(r: u8) -> bool
    ensures { result ≡ within 1 admin_count r }
{
    matches!(r, 1..=ADMINS)
}

// The UID of a row that is an admin's or a user's.
fn row_uid(admin: u64, user: u64, r: u8) -> u64
    requires { (admin < 0x10000000000) × (user < 0x10000000000) }
    ensures { result ≡ cond (within 1 admin_count r) (admin + r) (user + (r - admin_count)) }
{
    if is_admin(r) {
        return admin + u64::from(r);
    }
    user + u64::from(r.saturating_sub(ADMINS))
}

// The UID of an object of a session's SP.
#[tactic(auto, unfolding(model::specs::Uids::uid_of))]
pub fn uid_of(o: Object) -> u64
    ensures { result ≡ uid_of o }
{
    match o {
        Object::PinSid => PIN_SID,
        Object::PinMsid => PIN_MSID,
        Object::TperInfo => TPER_INFO,
        Object::SpAdmin => SP_ADMIN,
        Object::SpLocking => SP_LOCKING,
        Object::ThisSp => THIS_SP,
        Object::Authority(r) => row_uid(ADMIN, USER, r),
        Object::Pin(r) => row_uid(ADMIN_PIN, USER_PIN, r),
        Object::Range(0) => GLOBAL_RANGE,
        Object::Range(k) => RANGE + u64::from(k),
        Object::MbrControl => MBR_CONTROL,
        Object::Nothing => 0,
    }
}

// The last column that is known of an object.
#[tactic(auto, unfolding(model::specs::Access::last_column))]
pub fn last_column(o: Object) -> u8
    ensures { result ≡ last_column o }
{
    match o {
        Object::PinSid | Object::PinMsid | Object::Pin(_) => 7,
        Object::SpAdmin | Object::SpLocking => 7,
        Object::TperInfo => 8,
        Object::Authority(_) => 18,
        Object::Range(_) => 19,
        Object::MbrControl => 3,
        Object::ThisSp | Object::Nothing => 0,
    }
}

// ---- the access rows: an object's kind, a method, who, and a set of columns as bits
// who: 0 Anybody, 1 SID, 2 Admins, 3 the user whose row it is

const COUNT: usize = 29;

const TABLE: [Access; COUNT] = [
    // C_PIN_SID: Get SID 0, 5, 6, 7
    Access {
        kind: 1,
        method: 22,
        who: 1,
        columns: 225,
    },
    // C_PIN_SID: Set SID 3
    Access {
        kind: 1,
        method: 23,
        who: 1,
        columns: 8,
    },
    // C_PIN_MSID: Get Anybody 0, 3
    Access {
        kind: 2,
        method: 22,
        who: 0,
        columns: 9,
    },
    // TPerInfo: Get Anybody 0, 8
    Access {
        kind: 3,
        method: 22,
        who: 0,
        columns: 257,
    },
    // TPerInfo: Set SID 8
    Access {
        kind: 3,
        method: 23,
        who: 1,
        columns: 256,
    },
    // SP row Admin: Get Anybody 0, 6
    Access {
        kind: 4,
        method: 22,
        who: 0,
        columns: 65,
    },
    // SP row Locking: Get Anybody 0, 6
    Access {
        kind: 5,
        method: 22,
        who: 0,
        columns: 65,
    },
    // SP row Locking: Activate SID
    Access {
        kind: 5,
        method: 515,
        who: 1,
        columns: 0,
    },
    // SP row Admin: Revert SID
    Access {
        kind: 4,
        method: 514,
        who: 1,
        columns: 0,
    },
    // SP row Locking: Revert SID
    Access {
        kind: 5,
        method: 514,
        who: 1,
        columns: 0,
    },
    // ThisSP of Admin: Authenticate Anybody
    Access {
        kind: 6,
        method: 28,
        who: 0,
        columns: 0,
    },
    // Admin1's Authority: Get Admins 0, 5
    Access {
        kind: 8,
        method: 22,
        who: 2,
        columns: 33,
    },
    // any other Authority: Get Admins 0, 5
    Access {
        kind: 9,
        method: 22,
        who: 2,
        columns: 33,
    },
    // any other Authority: Set Admins 5
    Access {
        kind: 9,
        method: 23,
        who: 2,
        columns: 32,
    },
    // an admin's C_PIN: Get Admins 0, 5, 6, 7
    Access {
        kind: 10,
        method: 22,
        who: 2,
        columns: 225,
    },
    // a user's C_PIN: Get Admins 0, 5, 6, 7
    Access {
        kind: 11,
        method: 22,
        who: 2,
        columns: 225,
    },
    // an admin's C_PIN: Set Admins 3
    Access {
        kind: 10,
        method: 23,
        who: 2,
        columns: 8,
    },
    // a user's C_PIN: Set Admins 3
    Access {
        kind: 11,
        method: 23,
        who: 2,
        columns: 8,
    },
    // a user's C_PIN: Set that user 3
    Access {
        kind: 11,
        method: 23,
        who: 3,
        columns: 8,
    },
    // global range: Get Anybody 0
    Access {
        kind: 12,
        method: 22,
        who: 0,
        columns: 1,
    },
    // global range: Get Admins 3-9
    Access {
        kind: 12,
        method: 22,
        who: 2,
        columns: 1016,
    },
    // any other range: Get Anybody 0
    Access {
        kind: 13,
        method: 22,
        who: 0,
        columns: 1,
    },
    // any other range: Get Admins 3-9
    Access {
        kind: 13,
        method: 22,
        who: 2,
        columns: 1016,
    },
    // global range: Set Admins 5-9
    Access {
        kind: 12,
        method: 23,
        who: 2,
        columns: 992,
    },
    // any other range: Set Admins 3-9
    Access {
        kind: 13,
        method: 23,
        who: 2,
        columns: 1016,
    },
    // MBRControl: Get Anybody 0, 1, 2, 3
    Access {
        kind: 14,
        method: 22,
        who: 0,
        columns: 15,
    },
    // MBRControl: Set Admins 1, 2, 3
    Access {
        kind: 14,
        method: 23,
        who: 2,
        columns: 14,
    },
    // ThisSP of Locking: RevertSP Admins
    Access {
        kind: 7,
        method: 17,
        who: 2,
        columns: 0,
    },
    // ThisSP of Locking: Authenticate Anybody
    Access {
        kind: 7,
        method: 28,
        who: 0,
        columns: 0,
    },
];

// The table. A search takes it once: a constant that is named in a loop is made anew at each turn.
fn table() -> [Access; COUNT]
    ensures { result ≡ access_rows }
{
    TABLE
}

// An object's kind in the table.
#[tactic(auto, unfolding(model::specs::Access::kind_of))]
fn kind_of(locking: bool, o: Object) -> u8
    ensures { result ≡ kind_of locking o }
{
    match o {
        Object::PinSid => 1,
        Object::PinMsid => 2,
        Object::TperInfo => 3,
        Object::SpAdmin => 4,
        Object::SpLocking => 5,
        Object::ThisSp if locking => 7,
        Object::ThisSp => 6,
        Object::Authority(1) => 8,
        Object::Authority(_) => 9,
        Object::Pin(r) if is_admin(r) => 10,
        Object::Pin(_) => 11,
        Object::Range(0) => 12,
        Object::Range(_) => 13,
        Object::MbrControl => 14,
        Object::Nothing => 0,
    }
}

// Whose PIN row an object is.
#[tactic(auto, unfolding(model::specs::Access::self_of))]
fn self_of(o: Object) -> usize
    ensures { result ≡ self_of o }
{
    match o {
        Object::Authority(r) | Object::Pin(r) => usize::from(r),
        _ => 0,
    }
}

// Whether a row's authority is proved.
fn is_proved(s: Session, r: usize) -> bool
    ensures { result ≡ proved_at s r }
{
    r < PINS && s.proved[r]
}

// "Admins means any of Admin1-4 proved"
fn any_admin(s: Session) -> bool
    ensures { result ≡ any_proved s 4 }
{
    s.proved[1..=usize::from(ADMINS)].iter().any(|on| *on)
}

// Whether the session has an authority of the class; row is the object's own.
#[tactic(auto, unfolding(model::specs::Access::holds))]
fn class_holds(s: Session, row: usize, who: u8) -> bool
    ensures { result ≡ holds s row who }
{
    match who {
        0 => true,
        1 => is_proved(s, 0),
        2 => any_admin(s),
        _ => is_proved(s, row),
    }
}

// Whether the set has column c.
#[tactic(auto, using(crate::proofs::Search::past_columns))]
pub fn has_column(columns: u32, c: u8) -> bool
    ensures { result ≡ has_column columns c }
{
    c < 32 && (columns >> c) % 2 == 1
}

// What the rows for an object and a method say: that there is one, that one holds for the session, and the columns of those that hold.
// The flags stay: a row that holds may have no columns, and an Option in an Option is no plainer.
#[derive(Clone, Copy)]
pub struct Found {
    pub listed: bool,
    pub held: bool,
    pub columns: u32,
}

// What a row adds to what the others say; own is the object's row.
fn with_row(s: Session, kind: u8, own: usize, m: u32, a: Access, f: Found) -> Found
    ensures { result ≡ with_row s kind own m a f }
{
    if a.kind != kind || a.method != m {
        return f;
    }
    if !class_holds(s, own, a.who) {
        return Found { listed: true, ..f };
    }
    Found {
        listed: true,
        held: true,
        columns: a.columns | f.columns,
    }
}

// What the table says of an object and a method, in one search.
pub fn look_up(s: Session, o: Object, m: u32) -> Found
    ensures { TableSays s o m result }
{
    let kind = kind_of(s.locking, o);
    let own = self_of(o);
    let rows = table();
    let mut found = Found {
        listed: false,
        held: false,
        columns: 0,
    };
    for row in &rows {
        found = with_row(s, kind, own, m, *row, found);
    }
    found
}
