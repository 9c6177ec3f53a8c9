// How a call ends, and what it returns.
#![tactic(auto)]

pub mod check;

ghost use Rattle.std.specs.Prelude.{◌≡◌};
ghost use Rattle.call.specs.Outcome.{result_of, faulty_place};
ghost use Rattle.call.specs.Ended.{answer_of, read_answer_of};

// Why a call is refused. A bad record has the place of its first faulty field.
#[derive(Clone, Copy)]
pub enum CallRefusal {
    BadRecord(u32),
    BadLength,
    NoRoom,
    NotFinite,
}

// What a call over a record did: bytes written, bytes skipped.
#[derive(Clone, Copy, Default)]
pub struct Done {
    pub written: u32,
    pub skipped: u32,
}

// What the reader did: entries written, bytes skipped, bytes unread.
#[derive(Clone, Copy)]
pub struct ReadDone {
    pub entries: u32,
    pub skipped: u32,
    pub unread: u32,
}

// What a call over a record returns to C: a result, bytes written, bytes skipped, where the record is bad.
#[repr(C)]
#[derive(Drop)]
pub struct Answer {
    pub result: u32,
    pub written: u32,
    pub skipped: u32,
    pub place: u32,
}

// What the reader returns to C: a result, entries written, bytes skipped, bytes unread.
#[repr(C)]
#[derive(Drop)]
pub struct ReadAnswer {
    pub result: u32,
    pub entries: u32,
    pub skipped: u32,
    pub unread: u32,
}

fn result_of(why: CallRefusal) -> u32
    ensures { result ≡ result_of why }
{
    match why {
        CallRefusal::BadRecord(_) => 1,
        CallRefusal::BadLength => 2,
        CallRefusal::NoRoom => 3,
        CallRefusal::NotFinite => 4,
    }
}

fn faulty_place(why: CallRefusal) -> u32
    ensures { result ≡ faulty_place why }
{
    match why {
        CallRefusal::BadRecord(place) => place,
        CallRefusal::BadLength => 0,
        CallRefusal::NoRoom => 0,
        CallRefusal::NotFinite => 0,
    }
}

// A refusal has zero counts.
impl From<Result<Done, CallRefusal>> for Answer {
    ghost from_gives = { λ ended answer. answer ≡ answer_of ended };

    fn from(ended: Result<Done, CallRefusal>) -> Answer {
        match ended {
            Ok(done) => Answer {
                result: 0,
                written: done.written,
                skipped: done.skipped,
                place: 0,
            },
            Err(why) => Answer {
                result: result_of(why),
                written: 0,
                skipped: 0,
                place: faulty_place(why),
            },
        }
    }
}

// The same of the reader, which tells no place.
impl From<Result<ReadDone, CallRefusal>> for ReadAnswer {
    ghost from_gives = { λ ended answer. answer ≡ read_answer_of ended };

    fn from(ended: Result<ReadDone, CallRefusal>) -> ReadAnswer {
        match ended {
            Ok(done) => ReadAnswer {
                result: 0,
                entries: done.entries,
                skipped: done.skipped,
                unread: done.unread,
            },
            Err(why) => ReadAnswer {
                result: result_of(why),
                entries: 0,
                skipped: 0,
                unread: 0,
            },
        }
    }
}
