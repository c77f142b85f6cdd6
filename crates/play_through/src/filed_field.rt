// The worked field, loaded from a field file and played as the file says.

use crate::calls::play_on;
use crate::telling;
use air::{Collisions, Drawn, Losses, Slowest};
use answer_key::{Buffers, Failure};
use field::Act;
use filed::Filed;
use loading::{FieldFile, FileUnder};
use numbering::Zero;
use run::{Idle, Lent};

// A record a line: the field, its rows, its links, and then 8 instants to play, a damage, and 8 more.
pub const WORKED: &[u8] = b"F\x03\x03\x02\x02\x02\0\x05\0\0\0\0\
    S\0\xff\0\0\x01\0\0\0\0\0\0\
    S\x01\xff\0\0\x02\0\0\0\0\0\x01\
    S\x02\xff\0\0\x01\0\0\0\0\0\0\
    L\0\x01\x64\0\0\0\0\0\0\0\0\
    L\x01\x02\x64\0\0\0\0\0\0\0\0\
    L\x02\x01\x64\0\0\0\0\0\0\0\0\
    P\0\0\0\0\0\0\x08\0\0\0\0\
    S\x02\xff\0\0\x01\0\0\0\0\0\x01\
    P\0\0\0\0\0\0\x08\0\0\0\0";

// Only the file tells under which numbering it is; each has its own numbers.
pub fn play_file(rt: &HostRuntime, file: &[u8]) -> Result<(), Failure> {
    println!(rt; "The worked field, loaded from a file")?;
    match FieldFile::new(file)? {
        FieldFile::Free(field) => play_field(rt, &field, Zero),
        FieldFile::Linear(field) => play_field(rt, &field, 0),
        FieldFile::Circular(field) => play_field(rt, &field, 0),
        FieldFile::Differentiated(field) => play_field(rt, &field, 0),
    }
}

// Kept out of line: with it four times in one function the kit's clang crashes.
#[inline(never)]
fn play_field<N: Filed>(
    rt: &HostRuntime,
    field: &FileUnder<N>,
    held: N::Number,
) -> Result<(), Failure> {
    let rules = field.rules();
    let mut buffers = Buffers::of_file(rt.alloc(), field, held)?;
    let air = Collisions {
        below: Losses {
            listed: &buffers.losses,
            below: Drawn {
                seed: rules.settings.seed,
            },
        },
    };
    let mut lent = Lent {
        numbering: rules.numbering,
        delay: &Slowest,
        air: &air,
        links: &buffers.links,
        rows: &mut buffers.rows,
        senders: &mut buffers.senders,
    };
    let mut run = Idle::begin(rules.settings, lent.links.len(), &mut lent)?;
    for act in &buffers.acts {
        match act {
            Act::Play(budget) => play_on(rt, &mut run, &mut lent, *budget)?,
            Act::Damage(damage) => run.damage(&mut lent, *damage)?,
        }
    }
    let counts = run.finish(&lent)?;
    telling::finished(rt, counts)?;
    Ok(())
}
