// What the calls of a run tell.

use flood::Verdict;
use refusal::RunFault;

/// A copy, as it was taken: what carry answers, and a row of play's log.
#[derive(Clone, Copy, PartialEq, Eq, Debug)]
pub struct TakenCopy<Number> {
    pub instant: u32,
    pub from: u8,
    pub to: u8,
    pub hop: u8,
    pub number: Number,
    pub verdict: Verdict,
}

/// What has been since a run began. A copy that was forwarded counts as accepted, so the copies are those lost, refused and accepted.
#[derive(Clone, Copy, PartialEq, Eq, Debug)]
pub struct Counts {
    pub instants: u64,
    pub floods: u64,
    pub copies: u64,
    pub lost: u64,
    pub refused: u64,
    pub accepted: u64,
}

/// Why play ended: its budget is spent; the log has too few free rows for the next instant; or the next instant is refused.
#[derive(Clone, Copy, PartialEq, Eq, Debug)]
pub enum Ending {
    BudgetSpent,
    LogShort,
    Refused(RunFault),
}
