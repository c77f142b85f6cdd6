// The field of a run as it stands, written and loaded again.

use answer_key::{Buffers, Failure};
use field::Settings;
use loading::{FieldFile, FileUnder};
use numbering::Differentiated;
use run::{Idle, Lent};

const LONGEST_FILE: usize = 48_000;

// Settings as plain numbers, which can be compared.
fn plain(settings: Settings) -> (u8, u8, u8, u16, u32) {
    (
        settings.n,
        settings.hmax,
        settings.tmax,
        settings.f,
        settings.seed,
    )
}

// Does a file load as these settings and what is lent?
fn loads_as<D, A>(
    rt: &HostRuntime,
    field: &FileUnder<Differentiated>,
    settings: Settings,
    lent: &Lent<Differentiated, D, A>,
) -> Result<bool, Failure> {
    let buffers = Buffers::of_file(rt.alloc(), field, 0)?;
    Ok(
        plain(field.rules().settings) == plain(settings)
            && buffers.rows.as_slice() == &*lent.rows
            && buffers.links.as_slice() == lent.links,
    )
}

pub fn write_back<D, A>(
    rt: &HostRuntime,
    run: &Idle,
    settings: Settings,
    lent: &Lent<Differentiated, D, A>,
) -> Result<(), Failure> {
    let mut page = vec![in rt.alloc(); 0u8; LONGEST_FILE]?;
    let size = run.write(lent, &[], &mut page)?;
    println!(rt; "write: bytes {size}")?;
    let file = page.get(..size).unwrap_or(&[]);
    let same = match FieldFile::new(file)? {
        FieldFile::Differentiated(field) => loads_as(rt, &field, settings, lent)?,
        _ => false,
    };
    println!(rt; "load: the same field: {same}")?;
    Ok(())
}
