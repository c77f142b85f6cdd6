// A field out of a file.

use crate::playing::{Parts, play};
use answer_key::{Buffers, Failure};
use filed::Filed;
use loading::{FieldFile, FileUnder};
use numbering::Zero;

// Only the file tells under which numbering it is; each has its own numbers.
pub fn play_file(rt: &HostRuntime, file: &[u8], instants: u32) -> Result<(), Failure> {
    match FieldFile::new(file)? {
        FieldFile::Free(field) => play_field(rt, &field, Zero, instants),
        FieldFile::Linear(field) => play_field(rt, &field, 0, instants),
        FieldFile::Circular(field) => play_field(rt, &field, 0, instants),
        FieldFile::Differentiated(field) => play_field(rt, &field, 0, instants),
    }
}

// Kept out of line: with it four times in one function the kit's clang crashes.
#[inline(never)]
fn play_field<N: Filed>(
    rt: &HostRuntime,
    field: &FileUnder<N>,
    number: N::Number,
    instants: u32,
) -> Result<(), Failure> {
    let mut buffers = Buffers::of_file(rt.alloc(), field, number)?;
    let mut parts = Parts {
        links: &buffers.links,
        losses: &buffers.losses,
        rows: &mut buffers.rows,
    };
    play(rt, field.rules(), &mut parts, instants, true)
}
