// What a bay holds of its lot, the calls of a stand, and what they reply.
use plan::numbers::NumberFault;
use plan::verdicts::Verdict;

// A lot under inspection: the items taken so far, their count, and the verdict if there is one.
#[derive(Clone, Copy, Debug, Default, PartialEq, Eq)]
pub struct Record {
    pub size: u32,
    pub count: u32,
    pub verdict: Option<Verdict>,
}

// A call that names a bay, and for an item taken its count.
#[derive(Clone, Copy, Debug, PartialEq, Eq)]
pub enum Call {
    Open(u32),
    Take(u32, u32),
    Read(u32),
    Clear(u32),
}

// What a call replies that is not refused: an opening the bay, any other call the record.
#[derive(Clone, Copy, Debug, PartialEq, Eq)]
pub enum Reply {
    Opened(u32),
    Lot(Record),
}

// A call that the state of a bay, or its number, refuses. Each names the bay.
#[derive(Clone, Copy, Debug, PartialEq, Eq)]
pub enum BayFault {
    NoSuchBay(u32),
    Busy(u32),
    Empty(u32),
    Decided(u32),
}

// A refused call of a stand.
#[derive(Clone, Copy, Debug, PartialEq, Eq)]
pub enum StandFault {
    Number(NumberFault),
    Bay(BayFault),
}

// A call of a history, and the reply to it once it was put to a stand.
#[derive(Clone, Copy, Debug, PartialEq, Eq)]
pub struct Entry {
    pub call: Call,
    pub reply: Option<Result<Reply, StandFault>>,
}
