// The whole key of a field file.

use air::{Air, DelayRule};
use answer_key::{AnswerKey, Buffers, Failure, KeyRefusal, LONGEST_LINE, Seeded, key_air, print};
use field::Act;
use filed::Filed;
use history::TakenCopy;
use loading::{FieldFile, FileUnder};
use numbering::Zero;
use refusal::FieldFault;
use run::Lent;
use std::alloc::Global;

// The bytes and the rows that each portion of a key is lent.
#[derive(Clone, Copy)]
pub struct Room {
    pub page: usize,
    pub log: usize,
}

pub fn key_of(heap: Global, file: &[u8], room: Room) -> Result<Vec<u8>, Failure> {
    match FieldFile::new(file) {
        Ok(FieldFile::Free(field)) => play(heap, &field, Zero, room),
        Ok(FieldFile::Linear(field)) => play(heap, &field, 0, room),
        Ok(FieldFile::Circular(field)) => play(heap, &field, 0, room),
        Ok(FieldFile::Differentiated(field)) => play(heap, &field, 0, room),
        Err(fault) => refused(heap, fault),
    }
}

fn refused(heap: Global, fault: FieldFault) -> Result<Vec<u8>, Failure> {
    let none: &[TakenCopy<Zero>] = &[];
    let mut text = vec![in heap; 0u8; LONGEST_LINE]?;
    let size = print(none, Some(KeyRefusal::of_file(fault)), &mut text)?;
    text.truncate(size);
    Ok(text)
}

// Kept out of line: with it four times in one function the kit's clang crashes.
#[inline(never)]
fn play<N: Filed>(
    heap: Global,
    file: &FileUnder<N>,
    number: N::Number,
    room: Room,
) -> Result<Vec<u8>, Failure> {
    let rules = file.rules();
    let seed = rules.settings.seed;
    let Buffers {
        mut rows,
        links,
        losses,
        acts,
        mut senders,
        mut log,
    } = Buffers::of_file(heap, file, number)?;
    log.truncate(room.log);
    let delay = Seeded { seed };
    let air = key_air(seed, &losses);
    let mut lent = Lent {
        numbering: rules.numbering,
        delay: &delay,
        air: &air,
        links: &links,
        rows: &mut rows,
        senders: &mut senders,
    };
    let key = AnswerKey::of_file(file, &mut lent)?;
    whole(heap, key, &mut lent, &acts, &mut log, room.page)
}

fn whole<N: Filed, D: DelayRule, A: Air>(
    heap: Global,
    mut key: AnswerKey,
    lent: &mut Lent<N, D, A>,
    acts: &[Act<N::Number>],
    log: &mut [TakenCopy<N::Number>],
    page: usize,
) -> Result<Vec<u8>, Failure> {
    let mut page = vec![in heap; 0u8; page]?;
    let mut text = Vec::new(heap);
    for _ in 0..u64::MAX {
        match key.portion(lent, acts, log, &mut page)? {
            Some(size) => text.extend_from_slice(page.get(..size).unwrap_or(&[]))?,
            None => break,
        }
    }
    Ok(text)
}
