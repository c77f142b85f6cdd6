// A field played call by call, under any settling numbering, delay rule and air.

use crate::telling::{self, Refusal};
use air::{Air, DelayRule};
use answer_key::Failure;
use field::{Damage, Settings};
use flood::Verdict;
use history::{Ending, TakenCopy};
use numbering::{Numbering, Settling};
use run::{Declined, Idle, Instant, Lent};

// How many instants are opened and closed one by one, and how many are played then.
const BY_HAND: u32 = 9;

const PLAYED: u32 = 12;

// Plays a field of three sensors from its beginning, by each call of a run but write and finish.
pub fn play_by_calls<N: Settling, D: DelayRule, A: Air>(
    rt: &HostRuntime,
    settings: Settings,
    lent: &mut Lent<N, D, A>,
) -> Result<Idle, Failure> {
    let run = Idle::begin_settling(settings, lent.links.len(), lent)?;
    println!(rt; "begin: granted")?;
    look_at_all(rt, &run, lent)?;
    let mut run = first_instant(rt, run, lent)?;
    for _ in 1..BY_HAND {
        run = next_instant(rt, run, lent)?;
    }
    damage(rt, &mut run, lent)?;
    look_at_all(rt, &run, lent)?;
    play_on(rt, &mut run, lent, PLAYED)?;
    look_at_all(rt, &run, lent)?;
    Ok(run)
}

fn look_at_all<N: Numbering, D, A>(
    rt: &HostRuntime,
    run: &Idle,
    lent: &Lent<N, D, A>,
) -> Result<(), Failure> {
    for sensor in 0..3 {
        let row = run.look(lent, sensor)?;
        telling::row(rt, sensor, row)?;
    }
    Ok(())
}

// The first instant is closed too soon. The call declines and hands the open instant back, and so it goes on.
fn first_instant<N: Numbering, D: DelayRule, A: Air>(
    rt: &HostRuntime,
    run: Idle,
    lent: &mut Lent<N, D, A>,
) -> Result<Idle, Failure> {
    let instant = run.open(lent)?;
    telling::opened(rt, lent.senders)?;
    match instant.close(lent) {
        Ok(run) => Ok(run),
        Err(
            Declined {
                run: instant,
                fault,
            },
        ) => {
            println!(rt; "close: {}", Refusal(fault))?;
            carry_and_close(rt, instant, lent)
        }
    }
}

fn next_instant<N: Numbering, D: DelayRule, A: Air>(
    rt: &HostRuntime,
    run: Idle,
    lent: &mut Lent<N, D, A>,
) -> Result<Idle, Failure> {
    let instant = run.open(lent)?;
    telling::opened(rt, lent.senders)?;
    carry_and_close(rt, instant, lent)
}

// At most one copy goes over each link, and behind the last of them carry says that none is left.
fn carry_and_close<N: Numbering, D: DelayRule, A: Air>(
    rt: &HostRuntime,
    mut instant: Instant,
    lent: &mut Lent<N, D, A>,
) -> Result<Idle, Failure> {
    for _ in 0..=lent.links.len() {
        match instant.carry(lent)? {
            Some(copy) => telling::copy(rt, "carry", copy)?,
            None => {
                println!(rt; "carry: no copy is left")?;
                break;
            }
        }
    }
    let run = instant.close(lent)?;
    println!(rt; "close: done")?;
    Ok(run)
}

// A sensor that is not there, which is refused; and sensor 2, which is now to send when the base does, so that their copies meet.
fn damage<N: Numbering, D, A>(
    rt: &HostRuntime,
    run: &mut Idle,
    lent: &mut Lent<N, D, A>,
) -> Result<(), Failure> {
    let held = run.look(lent, 0)?.held;
    for sensor in [3, 2] {
        let damage = Damage {
            sensor,
            timer: 2,
            mark: Some(1),
            held,
        };
        match run.damage(lent, damage) {
            Ok(()) => println!(rt; "damage of {sensor}: done")?,
            Err(fault) => println!(rt; "damage of {sensor}: {}", Refusal(fault))?,
        }
    }
    Ok(())
}

// Plays a budget in as many plays as the log takes. It has a row for each link, so one instant always fits.
pub fn play_on<N: Numbering, D: DelayRule, A: Air>(
    rt: &HostRuntime,
    run: &mut Idle,
    lent: &mut Lent<N, D, A>,
    budget: u32,
) -> Result<(), Failure> {
    let blank = TakenCopy {
        instant: 0,
        from: 0,
        to: 0,
        hop: 0,
        number: run.look(lent, 0)?.held,
        verdict: Verdict::Lost,
    };
    let mut log = vec![in rt.alloc(); blank; lent.links.len()]?;
    let mut left = budget;
    for _ in 0..budget {
        let played = run.play(lent, left, &mut log);
        telling::played(rt, played, &log)?;
        left = left.saturating_sub(played.instants);
        match played.ending {
            Ending::BudgetSpent => break,
            Ending::LogShort => {}
            Ending::Refused(fault) => return Err(Failure::from(fault)),
        }
    }
    Ok(())
}
