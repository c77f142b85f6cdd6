// Calls and their answers in words, a line for each.

use field::Row;
use flood::Verdict;
use history::{Counts, Ending, TakenCopy};
use numbering::NumberKind;
use refusal::{Layer, RunFault, Told};
use run::Played;
use std::{fmt, io};

// A refusal by its number, place and layer.
#[derive(Drop)]
pub struct Refusal(pub RunFault);

fn layer_word(layer: Layer) -> &'static str {
    match layer {
        Layer::Record => "record",
        Layer::Field => "field",
        Layer::Run => "run",
    }
}

impl fmt::Display for Refusal {
    fn fmt<W: fmt::Write>(&self, f: &mut fmt::Formatter<W>) -> fmt::Result {
        let fault = self.0;
        let Told {
            number,
            place,
            layer,
        } = fault.told();
        let layer = layer_word(layer);
        write!(f, "refusal {number} at {place}, layer {layer}")
    }
}

fn verdict_word(verdict: Verdict) -> &'static str {
    match verdict {
        Verdict::Lost => "lost",
        Verdict::Refused => "refused",
        Verdict::Accepted => "accepted",
        Verdict::Forwards => "forwards",
    }
}

pub fn row<K: NumberKind>(rt: &HostRuntime, sensor: u8, row: Row<K>) -> io::Result<()> {
    let timer = row.timer;
    let held = row.held.value();
    match row.mark {
        Some(mark) => println!(rt; "look at {sensor}: timer {timer}, holds {held}, mark {mark}"),
        None => println!(rt; "look at {sensor}: timer {timer}, holds {held}, no mark"),
    }
}

// The sender bytes of an instant just opened.
pub fn opened(rt: &HostRuntime, senders: &[u8]) -> io::Result<()> {
    print!(rt; "open: sender bytes")?;
    for byte in senders {
        print!(rt; " {byte}")?;
    }
    println!(rt; "")
}

pub fn copy<K: NumberKind>(rt: &HostRuntime, call: &str, copy: TakenCopy<K>) -> io::Result<()> {
    let TakenCopy {
        instant,
        from,
        to,
        hop,
        number,
        verdict,
    } = copy;
    let number = number.value();
    let verdict = verdict_word(verdict);
    println!(rt; "{call}: {instant} {from} {to} {hop} {number} {verdict}")
}

// The rows that play wrote in the log, and then what it answered.
pub fn played<K: NumberKind>(
    rt: &HostRuntime,
    played: Played,
    log: &[TakenCopy<K>],
) -> io::Result<()> {
    let Played {
        instants,
        rows,
        ending,
    } = played;
    for row in log.iter().take(rows) {
        copy(rt, "log", *row)?;
    }
    print!(rt; "play: instants {instants}, rows {rows}, ")?;
    match ending {
        Ending::BudgetSpent => rt.println("budget spent"),
        Ending::LogShort => rt.println("log short"),
        Ending::Refused(fault) => rt.println(Refusal(fault)),
    }
}

pub fn finished(rt: &HostRuntime, counts: Counts) -> io::Result<()> {
    let Counts {
        instants,
        floods,
        copies,
        lost,
        refused,
        accepted,
    } = counts;
    print!(rt; "finish: instants {instants}, floods {floods}, copies {copies}, ")?;
    println!(rt; "lost {lost}, refused {refused}, accepted {accepted}")
}
