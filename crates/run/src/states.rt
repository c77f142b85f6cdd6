// Where a run stands: between two instants, or within one.
ghost use Rattle.std.specs.Prelude.{◌≡◌, ◌+◌, ◌*◌, ◌≤◌};

use field::Settings;
use refusal::RunFault;

// What a run holds of its own: what begin was given, the instants opened, and what was counted.
#[derive(Clone, Copy)]
pub struct Progress {
    pub settings: Settings,
    pub count: usize,
    pub instant: u32,
    pub floods: u32,
    pub copies: u64,
    pub lost: u64,
    pub refused: u64,
    pub accepted: u64,
    ghost few_links: { count ≤ 1024 },
    ghost last_instant: { instant ≤ 4294967295 },
    ghost few_floods: { floods ≤ instant },
    ghost each_once: { copies ≡ lost + refused + accepted },
}

/// A run between two instants, as begin and close give it. It is moved from call to call, is neither copied nor cloned, and may be let
/// go. It holds numbers only: the settings and the count of links that begin was given, the instants opened, and what was counted.
#[derive(Drop)]
pub struct Idle {
    pub(crate) progress: Progress,
    ghost few_copies: { progress.copies ≤ 1024 * progress.instant },
}

/// A run within an open instant, as open gives it, with the place in the links from which its next copy is looked for.
#[derive(Drop)]
pub struct Instant {
    pub(crate) progress: Progress,
    pub(crate) position: usize,
    ghost within: { position ≤ progress.count },
    ghost few_copies: { progress.copies + 1024 ≤ 1024 * progress.instant + position },
}

/// What is left of a call that takes a run and declines: the run as it stood before, to go on with, and the refusal, which tells its
/// number, its place and its layer. Nothing that was lent is altered.
#[derive(Drop)]
pub struct Declined<Run> {
    pub run: Run,
    pub fault: RunFault,
}
