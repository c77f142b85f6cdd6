// A key, printed as it is made.

use air::{Air, DelayRule};
use answer_key::{
    AnswerKey, Buffers, Failure, KeyRefusal, LONGEST_LINE, Seeded, cause, key_air, print,
};
use field::Act;
use filed::Filed;
use history::{Counts, TakenCopy};
use loading::{FieldFile, FileUnder};
use numbering::Zero;
use refusal::{FieldFault, Layer, RunFault};
use run::Lent;
use std::process::ExitCode;

const PAGE: usize = 65_536;

// Only the file tells under which numbering it is; each has its own numbers.
pub fn print_key(rt: &HostRuntime, file: &[u8], counts: bool) -> Result<ExitCode, Failure> {
    match FieldFile::new(file) {
        Ok(FieldFile::Free(field)) => play(rt, &field, Zero, counts),
        Ok(FieldFile::Linear(field)) => play(rt, &field, 0, counts),
        Ok(FieldFile::Circular(field)) => play(rt, &field, 0, counts),
        Ok(FieldFile::Differentiated(field)) => play(rt, &field, 0, counts),
        Err(fault) => refuse(rt, fault),
    }
}

// A file that is no field has the line of its refusal alone.
fn refuse(rt: &HostRuntime, fault: FieldFault) -> Result<ExitCode, Failure> {
    let none: &[TakenCopy<Zero>] = &[];
    let refusal = KeyRefusal::of_file(fault);
    let mut page = [0; LONGEST_LINE];
    let size = print(none, Some(refusal), &mut page)?;
    rt.write_all(page.get(..size).unwrap_or(&[]))?;
    tell(rt, RunFault::from(fault), refusal.index)
}

fn layer_word(layer: Layer) -> &'static str {
    match layer {
        Layer::Record => "record",
        Layer::Field => "field",
        Layer::Run => "run",
    }
}

fn tell(rt: &HostRuntime, fault: RunFault, index: usize) -> Result<ExitCode, Failure> {
    let layer = layer_word(fault.told().layer);
    let cause = cause(fault);
    eprintln!(rt; "key: record {index} is refused in the layer {layer}: {cause}")?;
    Ok(ExitCode::FAILURE)
}

// Kept out of line: with it four times in one function the kit's clang crashes.
#[inline(never)]
fn play<N: Filed>(
    rt: &HostRuntime,
    file: &FileUnder<N>,
    number: N::Number,
    counts: bool,
) -> Result<ExitCode, Failure> {
    let rules = file.rules();
    let seed = rules.settings.seed;
    let Buffers {
        mut rows,
        links,
        losses,
        acts,
        mut senders,
        mut log,
    } = Buffers::of_file(rt.alloc(), file, number)?;
    let delay = Seeded { seed };
    let air = key_air(seed, &losses);
    let mut lent = Lent {
        numbering: rules.numbering,
        delay: &delay,
        air: &air,
        links: &links,
        rows: &mut rows,
        senders: &mut senders,
    };
    let key = AnswerKey::of_file(file, &mut lent)?;
    print_portions(rt, key, &mut lent, &acts, &mut log, counts)
}

fn print_portions<N: Filed, D: DelayRule, A: Air>(
    rt: &HostRuntime,
    mut key: AnswerKey,
    lent: &mut Lent<N, D, A>,
    acts: &[Act<N::Number>],
    log: &mut [TakenCopy<N::Number>],
    counts: bool,
) -> Result<ExitCode, Failure> {
    let mut page = vec![in rt.alloc(); 0u8; PAGE]?;
    for _ in 0..u64::MAX {
        match key.portion(lent, acts, log, &mut page)? {
            Some(size) => rt.write_all(page.get(..size).unwrap_or(&[]))?,
            None => break,
        }
    }
    let fault = key.fault();
    let index = key.index();
    let all = key.finish(lent)?;
    if counts {
        tell_counts(rt, all)?;
    }
    match fault {
        Some(fault) => tell(rt, fault, index),
        None => Ok(ExitCode::SUCCESS),
    }
}

fn tell_counts(rt: &HostRuntime, counts: Counts) -> Result<(), Failure> {
    let Counts {
        instants,
        floods,
        copies,
        lost,
        refused,
        accepted,
    } = counts;
    eprintln!(rt; "instants {instants}\nfloods {floods}\ncopies {copies}")?;
    eprintln!(rt; "lost {lost}\nrefused {refused}\naccepted {accepted}")?;
    Ok(())
}
