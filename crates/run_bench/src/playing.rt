// A field played on and on, with a log that is read as it fills.

use air::{Air, DelayRule};
use answer_key::{Failure, LOG_ROWS, Seeded, key_air};
use field::{Link, Loss, Row, Rules};
use flood::Verdict;
use history::{Counts, Ending, TakenCopy};
use numbering::Numbering;
use run::{Idle, Lent};
use std::time::{Duration, Instant};

// What a field is played with. Its links and losses are looked at alone.
#[derive(Drop)]
pub struct Parts<'l, 'x, 'r, Number> {
    pub links: &'l [Link],
    pub losses: &'x [Loss],
    pub rows: &'r mut [Row<Number>],
}

// How long play took, and how many instants had a copy.
#[derive(Clone, Copy)]
struct Measured {
    took: Duration,
    busy: u64,
    last: u32,
}

impl Measured {
    // With the rows of one more log. The copies of an instant stand together.
    fn with_log<Number>(mut self, took: Duration, log: &[TakenCopy<Number>]) -> Measured {
        self.took = self.took.saturating_add(took);
        for copy in log.iter() {
            if copy.instant != self.last {
                self.busy = self.busy.saturating_add(1);
                self.last = copy.instant;
            }
        }
        self
    }
}

// Under the delay rule and the air of the key.
pub fn play<N: Numbering>(
    rt: &HostRuntime,
    rules: Rules<N>,
    parts: &mut Parts<N::Number>,
    instants: u32,
    timed: bool,
) -> Result<(), Failure> {
    let seed = rules.settings.seed;
    let delay = Seeded { seed };
    let air = key_air(seed, parts.losses);
    let mut senders = vec![in rt.alloc(); 0u8; parts.rows.len()]?;
    let mut lent = Lent {
        numbering: rules.numbering,
        delay: &delay,
        air: &air,
        links: parts.links,
        rows: &mut *parts.rows,
        senders: &mut senders,
    };
    let mut run = Idle::begin(rules.settings, lent.links.len(), &mut lent)?;
    let measured = play_on(rt, &mut run, &mut lent, instants)?;
    let counts = run.finish(&lent)?;
    tell(rt, counts, measured.busy)?;
    if timed {
        tell_times(rt, counts, measured.took)?;
    }
    Ok(())
}

// In as many plays as the log takes: each instant fits, since a log has more rows than a field may have links.
fn play_on<N: Numbering, D: DelayRule, A: Air>(
    rt: &HostRuntime,
    run: &mut Idle,
    lent: &mut Lent<N, D, A>,
    instants: u32,
) -> Result<Measured, Failure> {
    let blank = TakenCopy {
        instant: 0,
        from: 0,
        to: 0,
        hop: 0,
        number: run.look(lent, 0)?.held,
        verdict: Verdict::Lost,
    };
    let mut log = vec![in rt.alloc(); blank; LOG_ROWS]?;
    let mut measured = Measured {
        took: Duration::ZERO,
        busy: 0,
        last: 0,
    };
    let mut left = instants;
    for _ in 0..instants {
        let start = Instant::now(rt)?;
        let played = run.play(lent, left, &mut log);
        let took = start.elapsed(rt)?;
        let rows = played.rows.min(log.len());
        measured = measured.with_log(took, &log[..rows]);
        left = left.saturating_sub(played.instants);
        match played.ending {
            Ending::BudgetSpent => break,
            Ending::LogShort => {}
            Ending::Refused(fault) => return Err(Failure::from(fault)),
        }
    }
    Ok(measured)
}

fn tell(rt: &HostRuntime, counts: Counts, busy: u64) -> Result<(), Failure> {
    let Counts {
        instants,
        floods,
        copies,
        lost,
        refused,
        accepted,
    } = counts;
    let quiet = instants.saturating_sub(busy);
    println!(rt; "instants {instants}, quiet {quiet}, floods {floods}")?;
    println!(rt; "copies {copies}, lost {lost}, refused {refused}, accepted {accepted}")?;
    Ok(())
}

fn tell_times(rt: &HostRuntime, counts: Counts, took: Duration) -> Result<(), Failure> {
    let nanos = took.as_nanos();
    let instant = nanos / u128::from(counts.instants.max(1));
    let copy = nanos / u128::from(counts.copies.max(1));
    println!(rt; "{instant} ns an instant, {copy} ns a copy")?;
    Ok(())
}
