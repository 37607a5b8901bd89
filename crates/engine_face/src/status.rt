// How a call ended.
ghost use Rattle.std.specs.Prelude.{◌≡◌};
ghost use Rattle.engine_face.specs.Status.{status_numbered, status_number, status_of_end, status_of_stop};

use book_engine::Stop;
use book_model::Refusal;

/// How a call ended. In each case but `Done` and `NoRoom` nothing has changed.
#[derive(Clone, Copy, PartialEq, Eq, Debug)]
pub enum Status {
    /// 0: the call was done.
    Done,
    /// 1 to 20: the call was refused. The number is that of the refusal.
    Refused(Refusal),
    /// 64: there was no memory for the call.
    NoMemory,
    /// 65: the call was done, and its answer has no place in the room that was given. The room is as it was.
    NoRoom,
    /// 66: nothing is open.
    NotOpen,
    /// 67: bytes that were to be a text aren't UTF-8.
    NotUtf8,
    /// 68: more steps were to be undone than can be.
    BadLimit,
    /// 69: the table isn't one of custom functions.
    BadTable,
    /// 70: a workbook is open already.
    StillOpen,
    /// 71: the number is 10^12 or more in absolute value.
    BadNumber,
    /// 72: the cells to write don't stand in order, each once, or the text of one isn't among the texts or no UTF-8.
    BadCells,
    /// 73: no change has this number.
    BadChange,
}

#[tactic(auto, unfolding(crate::specs::Status::status_numbered))]
impl Status {
    /// The number that a caller in another language gets.
    pub fn number(self) -> u8
        ensures number { result ≡ status_number self }
        ensures back { status_numbered result ≡ self }
    {
        match self {
            Status::Done => 0,
            Status::Refused(refusal) => refusal.number(),
            Status::NoMemory => 64,
            Status::NoRoom => 65,
            Status::NotOpen => 66,
            Status::NotUtf8 => 67,
            Status::BadLimit => 68,
            Status::BadTable => 69,
            Status::StillOpen => 70,
            Status::BadNumber => 71,
            Status::BadCells => 72,
            Status::BadChange => 73,
        }
    }

    // How a call of the engine ended that answers nothing.
    pub(crate) fn of(end: Result<(), Stop>) -> Status
        ensures { result ≡ status_of_end end }
    {
        match end {
            Ok(()) => Status::Done,
            Err(stop) => Status::from(stop),
        }
    }
}

impl From<Stop> for Status {
    ghost from_gives = { λ stop status. status ≡ status_of_stop stop };

    fn from(stop: Stop) -> Status {
        match stop {
            Stop::Refused(refusal) => Status::Refused(refusal),
            Stop::NoMemory => Status::NoMemory,
        }
    }
}
