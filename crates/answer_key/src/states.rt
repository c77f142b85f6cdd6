// Where a key stands.
use refusal::RunFault;
use run::Idle;

// What is still to come of a key, behind the lines that wait.
#[derive(Clone, Copy)]
pub enum Ahead {
    // the acts that are left, and what comes of them
    Acts,
    // the line of the refusal at which the acts ended
    Refusal(RunFault),
    // nothing, since that line is printed
    Refused(RunFault),
}

// How far a key has come in the acts, and in the log.
#[derive(Clone, Copy)]
pub struct Bookmark {
    pub ahead: Ahead,
    // the place of the next act, the index of its record, and how many instants of it are played
    pub act: usize,
    pub index: usize,
    pub played: u32,
    // the rows of the log whose lines wait to be printed: the first, and how many
    pub first: usize,
    pub lines: usize,
}

/// A key in the making: its run, and how far it has come. It holds numbers only.
#[derive(Drop)]
pub struct AnswerKey {
    pub(crate) run: Idle,
    pub(crate) mark: Bookmark,
}
