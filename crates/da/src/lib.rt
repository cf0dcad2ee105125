// What da_stmt answers, and how the answers of arms meet: DaOut, DaGiveUp, DaResult of da/mod.rs.
#![tactic(auto)]

ghost use Rattle.std.specs.Prelude.{◌≡◌};
ghost use Rattle.da.specs.Outcome.{state as state_of, merge as merge_of};

// What control does after a statement: it reaches the next one, with the local written or not, or it does not.
#[derive(Clone, Copy)]
pub enum DaOut {
    Falls(bool),
    Jumps,
}

// Why the walk gives up, each with document 01's number.
#[derive(Clone, Copy)]
pub enum Reason {
    SharedNet = 1,
    ReadUnwritten = 2,
    EventReads = 3,
    PartWritten = 4,
    Forks = 5,
    TaskReads = 6,
    TaskUnknown = 7,
    ControlReads = 8,
    NotModelled = 9,
}

// Where the walk stopped, and why: a reason's number, since answers tell any that a caller makes.
#[derive(Clone, Copy)]
pub struct DaGiveUp {
    pub reason: u32,
    pub lo: u32,
    pub hi: u32,
}

pub type DaResult = Result<DaOut, DaGiveUp>;

// What a call does to the local.
#[derive(Clone, Copy)]
pub enum CallEffect {
    Inert,
    Writes,
    Reads,
    Unknown,
}

impl DaOut {
    // The state to enter the next statement with.
    pub fn state(self) -> bool
        ensures { result ≡ state_of self }
    {
        match self {
            DaOut::Falls(a) => a,
            DaOut::Jumps => true,
        }
    }

    // Two arms where they meet.
    pub fn merge(self, other: DaOut) -> DaOut
        ensures { result ≡ merge_of self other }
    {
        match (self, other) {
            (DaOut::Jumps, out) | (out, DaOut::Jumps) => out,
            (DaOut::Falls(a), DaOut::Falls(b)) => DaOut::Falls(a && b),
        }
    }
}
