// A listing, read and written as a field file.
use crate::contents;
use entries::{Entry, entry_in, first_misnamed};
use field::{Act, Link, Loss, Row};
use filed::Filed;
use loading::{FieldFile, FileUnder};
use numbering::NumberKind;
use printing::put_on;
use recording::Records;
use refusal::{FieldFault, RecordFault, RunFault, Told};
use std::alloc::{AllocError, Global};
use std::process::ExitCode;
use std::{io, str};
use vetting::Draft;
use writing::{write_acts, write_field};

// Why there are no entries.
#[derive(Debug, Drop)]
enum Failure {
    // The line that is none of a listing, counted from 1.
    Line(usize),
    Memory(AllocError),
}

impl From<AllocError> for Failure {
    fn from(error: AllocError) -> Failure {
        Failure::Memory(error)
    }
}

// What the lines of a listing say.
fn entries_in(heap: Global, text: &str) -> Result<Vec<Entry>, Failure> {
    let mut entries = Vec::new(heap);
    let mut words = Vec::new(heap);
    for (i, line) in text.lines().enumerate() {
        words.clear();
        words.extend(line.split_whitespace())?;
        let entry = entry_in(&words).ok_or(Failure::Line(i.saturating_add(1)))?;
        entries.push(entry).map_err(AllocError::from)?;
    }
    Ok(entries)
}

// A row of the number 0, to make room for rows.
fn blank<K: NumberKind>() -> Option<Row<K>> {
    let held = K::of_value(0)?;
    Some(Row {
        timer: 0,
        held,
        mark: None,
        outgoing: None,
    })
}

const LINK: Link = Link {
    from: 0,
    to: 0,
    label: 0,
};

const LOSS: Loss = Loss {
    from: 0,
    to: 0,
    instant: 0,
};

// Writes a field and its acts on a page, one behind the other.
fn write_both<N: Filed>(
    draft: &Draft<N>,
    acts: &[Act<N::Number>],
    page: &mut [u8],
) -> Result<(), RunFault> {
    let field = write_field(draft, page)?;
    let rest = page.get_mut(field..).ok_or(RunFault::NoRoom)?;
    write_acts(&draft.rules, acts, rest)?;
    Ok(())
}

// What a file that passes is not refused for; so that no fault goes untold.
fn tell(rt: &HostRuntime, fault: RunFault) -> io::Result<ExitCode> {
    let Told { number, place, .. } = fault.told();
    eprintln!(rt; "field_tool: refusal {number} {place}")?;
    Ok(ExitCode::FAILURE)
}

// Fills buffers from a field file, and writes what they hold: so many bytes as the file has.
fn copy<N: Filed>(rt: &HostRuntime, field: &FileUnder<N>, size: usize) -> io::Result<ExitCode> {
    let alloc = rt.alloc();
    let Some(row) = blank() else {
        eprintln!(rt; "field_tool: no number has the value 0")?;
        return Ok(ExitCode::FAILURE);
    };
    let counts = field.counts();
    let mut rows = vec![in alloc; row; counts.rows]?;
    let mut links = vec![in alloc; LINK; counts.links]?;
    let mut losses = vec![in alloc; LOSS; counts.losses]?;
    let mut acts = vec![in alloc; Act::Play(0); counts.acts]?;
    let mut page = vec![in alloc; 0u8; size]?;
    if let Err(fault) = field.fill(&mut rows, &mut links, &mut losses, &mut acts) {
        return tell(rt, fault);
    }
    let draft = Draft {
        rules: field.rules(),
        rows: &rows,
        links: &links,
        losses: &losses,
    };
    if let Err(fault) = write_both(&draft, &acts, &mut page) {
        return tell(rt, fault);
    }
    rt.write_all(&page)?;
    Ok(ExitCode::SUCCESS)
}

fn refuse(rt: &HostRuntime, fault: FieldFault) -> io::Result<ExitCode> {
    if let FieldFault::Record(RecordFault::BadLength) = fault {
        eprintln!(rt; "field_tool: there are more than 4,000 lines")?;
        return Ok(ExitCode::FAILURE);
    }
    let line = fault.told().place.saturating_add(1);
    eprintln!(rt; "field_tool: line {line}: {fault}")?;
    Ok(ExitCode::FAILURE)
}

// The entries as a file, checked, and written as the field that it loads as.
fn make_file(rt: &HostRuntime, entries: &[Entry]) -> io::Result<ExitCode> {
    let mut page = Vec::new(rt.alloc());
    let size = put_on(rt.alloc(), &Records(entries), &mut page)?;
    let file = &page[..size];
    let field = match FieldFile::new(file) {
        Ok(field) => field,
        Err(fault) => return refuse(rt, fault),
    };
    if let Some(place) = first_misnamed(entries) {
        return refuse(rt, FieldFault::OutOfOrder(place));
    }
    match field {
        FieldFile::Free(field) => copy(rt, &field, file.len()),
        FieldFile::Linear(field) => copy(rt, &field, file.len()),
        FieldFile::Circular(field) => copy(rt, &field, file.len()),
        FieldFile::Differentiated(field) => copy(rt, &field, file.len()),
    }
}

pub(crate) fn make(rt: &HostRuntime, name: &str) -> io::Result<ExitCode> {
    let Ok(file) = contents(rt, name) else {
        eprintln!(rt; "field_tool: {name} cannot be read")?;
        return Ok(ExitCode::FAILURE);
    };
    let Ok(text) = str::from_utf8(&file) else {
        eprintln!(rt; "field_tool: {name} is no text")?;
        return Ok(ExitCode::FAILURE);
    };
    match entries_in(rt.alloc(), text.trim_end()) {
        Ok(entries) => make_file(rt, &entries),
        Err(Failure::Line(line)) => {
            eprintln!(rt; "field_tool: line {line} is not understood")?;
            Ok(ExitCode::FAILURE)
        }
        Err(Failure::Memory(error)) => Err(error.into()),
    }
}
