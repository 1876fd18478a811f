//! Entries with their lines, worked out by hand.
use mls_labels::{CatSet, IntLabel, Label, SecLabel};
use mls_requests::{Action, Entry, Reason, Reply, Request};
use mls_tables::{Mode, ObjectId, SubjectId};

/// The entry of a request of this subject.
pub fn entry(number: u64, session: u32, subject: u16, action: Action, reply: Reply) -> Entry {
    let request = Request {
        subject: SubjectId(subject),
        action,
    };
    Entry::new(number, session, request, reply)
}

/// A security label of this level, below 16, without a category.
fn level(number: u8) -> SecLabel {
    SecLabel::of(Label::new(number.min(15), CatSet::empty()))
}

/// The label of the highest level and all categories.
fn highest() -> Label {
    let mut all = CatSet::empty();
    for number in 0..=255u8 {
        all = all.with(number);
    }
    Label::new(15, all)
}

/// The labels of an entry that makes an object: level 2 and category 0, and level 1.
fn labels() -> (SecLabel, IntLabel) {
    let security = Label::new(2, CatSet::empty().with(0));
    (
        SecLabel::of(security),
        IntLabel::of(Label::new(1, CatSet::empty())),
    )
}

/// The entry whose line is the longest.
pub fn longest() -> Entry {
    let action = Action::Create(
        ObjectId(65_535),
        SecLabel::of(highest()),
        IntLabel::of(highest()),
    );
    entry(
        u64::MAX,
        u32::MAX,
        65_535,
        action,
        Reply::No(Reason::Compatibility),
    )
}

/// Its line.
pub const LONGEST: &str = "18446744073709551615 4294967295 65535 create 65535 15:\
    0,1,2,3,4,5,6,7,8,9,10,11,12,13,14,15,16,17,18,19,20,21,22,23,24,25,26,27,28,29,30,31,32,33,34,\
    35,36,37,38,39,40,41,42,43,44,45,46,47,48,49,50,51,52,53,54,55,56,57,58,59,60,61,62,63,64,65,66,\
    67,68,69,70,71,72,73,74,75,76,77,78,79,80,81,82,83,84,85,86,87,88,89,90,91,92,93,94,95,96,97,98,\
    99,100,101,102,103,104,105,106,107,108,109,110,111,112,113,114,115,116,117,118,119,120,121,122,\
    123,124,125,126,127,128,129,130,131,132,133,134,135,136,137,138,139,140,141,142,143,144,145,146,\
    147,148,149,150,151,152,153,154,155,156,157,158,159,160,161,162,163,164,165,166,167,168,169,170,\
    171,172,173,174,175,176,177,178,179,180,181,182,183,184,185,186,187,188,189,190,191,192,193,194,\
    195,196,197,198,199,200,201,202,203,204,205,206,207,208,209,210,211,212,213,214,215,216,217,218,\
    219,220,221,222,223,224,225,226,227,228,229,230,231,232,233,234,235,236,237,238,239,240,241,242,\
    243,244,245,246,247,248,249,250,251,252,253,254,255 15:\
    0,1,2,3,4,5,6,7,8,9,10,11,12,13,14,15,16,17,18,19,20,21,22,23,24,25,26,27,28,29,30,31,32,33,34,\
    35,36,37,38,39,40,41,42,43,44,45,46,47,48,49,50,51,52,53,54,55,56,57,58,59,60,61,62,63,64,65,66,\
    67,68,69,70,71,72,73,74,75,76,77,78,79,80,81,82,83,84,85,86,87,88,89,90,91,92,93,94,95,96,97,98,\
    99,100,101,102,103,104,105,106,107,108,109,110,111,112,113,114,115,116,117,118,119,120,121,122,\
    123,124,125,126,127,128,129,130,131,132,133,134,135,136,137,138,139,140,141,142,143,144,145,146,\
    147,148,149,150,151,152,153,154,155,156,157,158,159,160,161,162,163,164,165,166,167,168,169,170,\
    171,172,173,174,175,176,177,178,179,180,181,182,183,184,185,186,187,188,189,190,191,192,193,194,\
    195,196,197,198,199,200,201,202,203,204,205,206,207,208,209,210,211,212,213,214,215,216,217,218,\
    219,220,221,222,223,224,225,226,227,228,229,230,231,232,233,234,235,236,237,238,239,240,241,242,\
    243,244,245,246,247,248,249,250,251,252,253,254,255 no compatibility";

/// A request for an access to object 2.
fn get(mode: Mode) -> Action {
    Action::Get(mode, ObjectId(2))
}

/// A permission for subject 3 to object 2.
fn give(mode: Mode) -> Action {
    Action::Give(mode, SubjectId(3), ObjectId(2))
}

/// A request for this current level.
fn to(number: u8) -> Action {
    Action::SubjectLevel(level(number))
}

/// An object below object 1.
fn create() -> Action {
    let (security, integrity) = labels();
    Action::Create(ObjectId(1), security, integrity)
}

/// Another label for object 1.
fn relabel() -> Action {
    Action::ObjectLevel(ObjectId(1), labels().0)
}

/// That this object be deleted.
fn delete(object: u16) -> Action {
    Action::Delete(ObjectId(object))
}

/// A denial.
fn no(reason: Reason) -> Reply {
    Reply::No(reason)
}

/// A granted request of session 0.
fn granted(number: u64, subject: u16, action: Action) -> Entry {
    entry(number, 0, subject, action, Reply::Yes)
}

/// A denied request of session 0.
fn denied(number: u64, subject: u16, action: Action, reason: Reason) -> Entry {
    entry(number, 0, subject, action, no(reason))
}

/// An undefined request of session 0.
fn undefined(number: u64, subject: u16, action: Action) -> Entry {
    entry(number, 0, subject, action, Reply::Undefined)
}

/// Requests for an access, with their lines.
pub fn accesses() -> [(&'static str, Entry); 9] {
    let release = Action::Release(Mode::Read, ObjectId(2));
    let rescind = Action::Rescind(Mode::Execute, SubjectId(3), ObjectId(2));
    let (execute, append, write) = (get(Mode::Execute), get(Mode::Append), get(Mode::Write));
    let (unpermitted, apart) = (Reason::Discretionary, Reason::Integrity);
    [
        (
            "0 0 1 get-read 2 no star",
            denied(0, 1, get(Mode::Read), Reason::Star),
        ),
        ("2 0 1 get-read 2 yes", granted(2, 1, get(Mode::Read))),
        (
            "0 0 1 get-execute 2 no integrity",
            denied(0, 1, execute, apart),
        ),
        (
            "0 0 1 get-append 2 no discretionary",
            denied(0, 1, append, unpermitted),
        ),
        (
            "10 0 8 get-write 2 no simple",
            denied(10, 8, write, Reason::Simple),
        ),
        ("4 0 1 release read 2 yes", granted(4, 1, release)),
        ("7 0 2 give write 3 2 yes", granted(7, 2, give(Mode::Write))),
        (
            "7 0 2 give append 3 2 no authority",
            denied(7, 2, give(Mode::Append), Reason::Authority),
        ),
        (
            "8 0 2 rescind execute 3 2 undefined",
            undefined(8, 2, rescind),
        ),
    ]
}

/// Requests about objects and levels, with their lines.
pub fn changes() -> [(&'static str, Entry); 11] {
    let made = Reply::Created(ObjectId(4));
    [
        ("1 0 1 level 1 yes", granted(1, 1, to(1))),
        ("3 0 1 level 0 no star", denied(3, 1, to(0), Reason::Star)),
        ("5 0 1 level 0 yes", granted(5, 1, to(0))),
        ("0 0 0 level 9 undefined", undefined(0, 0, to(9))),
        (
            "6 0 1 level 3 no ceiling",
            denied(6, 1, to(3), Reason::Ceiling),
        ),
        (
            "2 0 2 create 1 2:0 1 created 4",
            entry(2, 0, 2, create(), made),
        ),
        (
            "2 0 2 create 1 2:0 1 no full",
            denied(2, 2, create(), Reason::Full),
        ),
        (
            "2 0 2 delete 0 no root",
            denied(2, 2, delete(0), Reason::Root),
        ),
        ("2 0 2 delete 1 yes", granted(2, 2, delete(1))),
        (
            "9 0 2 relabel 1 2:0 no compatibility",
            denied(9, 2, relabel(), Reason::Compatibility),
        ),
        (LONGEST, longest()),
    ]
}
