// Memory for the key of a field file.
ghost use Rattle.std.specs.Prelude.{◌≡◌, IfOk, replicate, vec_len};
ghost use Rattle.field.specs.declared.Act.TheVariants.{Play};
ghost use Rattle.answer_key.specs.Files.{blank_link, blank_loss, blank_row, file_acts, file_links, file_losses, file_rows};

use field::{Act, Link, Loss, Row};
use filed::Filed;
use flood::Verdict;
use history::TakenCopy;
use loading::{Counts, FileUnder};
use numbering::NumberKind;
use std::alloc::{AllocError, Global};

/// The rows of a log in which copies seldom have to be counted before an instant is played.
pub const LOG_ROWS: usize = 65_536;

const LINK: Link = Link {
    from: 0,
    to: 0,
    label: 0,
};

const LOSS: Loss = Loss {
    from: 0,
    to: 0,
    instant: 0,
};

// So many of an item. Of what `vec!` clones, a proof knows that it is the same only for numbers.
fn repeated<T: Copy>(heap: Global, item: T, count: usize) -> Result<Vec<T>, AllocError>
    ensures { IfOk result (λ items. items.items ≡ replicate count item) }
{
    let mut items = Vec::with_capacity(heap, count)?;
    for _made in 0..count {
        items.push(item)?;
    }
    Ok(items)
}

/// The parts of a field file, and what its run and its key are lent besides.
#[derive(Drop)]
pub struct Buffers<Number> {
    pub rows: Vec<Row<Number>>,
    pub links: Vec<Link>,
    pub losses: Vec<Loss>,
    pub acts: Vec<Act<Number>>,
    pub senders: Vec<u8>,
    pub log: Vec<TakenCopy<Number>>,
}

impl<Number: NumberKind> Buffers<Number> {
    /// The parts of a field file, a sender byte for each row, and a log of `LOG_ROWS`. Until it is filled, memory holds a number that is
    /// given. Only memory can fail.
    pub fn of_file<N: Filed<Number = Number>>(
        heap: Global,
        file: &FileUnder<N>,
        number: Number,
    ) -> Result<Buffers<Number>, AllocError>
        ensures rows { IfOk result (λ buffers. buffers.rows.items ≡ file_rows file.now.file.now Number.NumberKind.of number) }
        ensures links { IfOk result (λ buffers. buffers.links.items ≡ file_links file.now.file.now) }
        ensures losses { IfOk result (λ buffers. buffers.losses.items ≡ file_losses file.now.file.now) }
        ensures acts { IfOk result (λ buffers. buffers.acts.items ≡ file_acts file.now.file.now Number.NumberKind.of number) }
        ensures senders { IfOk result (λ buffers. buffers.senders.items ≡ replicate file.now.settings.n 0) }
        ensures log { IfOk result (λ buffers. vec_len buffers.log ≡ LOG_ROWS) }
    {
        let mut buffers = Buffers::blank(heap, file.counts(), file.rules().settings.n, number)?;
        // there is room for all of it
        let _counts = file.fill(
            &mut buffers.rows,
            &mut buffers.links,
            &mut buffers.losses,
            &mut buffers.acts,
        );
        Ok(buffers)
    }

    fn blank(
        heap: Global,
        counts: Counts,
        n: u8,
        number: Number,
    ) -> Result<Buffers<Number>, AllocError>
        ensures rows { IfOk result (λ buffers. buffers.rows.items ≡ replicate counts.rows (blank_row number)) }
        ensures links { IfOk result (λ buffers. buffers.links.items ≡ replicate counts.links blank_link) }
        ensures losses { IfOk result (λ buffers. buffers.losses.items ≡ replicate counts.losses blank_loss) }
        ensures acts { IfOk result (λ buffers. buffers.acts.items ≡ replicate counts.acts (Play 0)) }
        ensures senders { IfOk result (λ buffers. buffers.senders.items ≡ replicate n 0) }
        ensures log { IfOk result (λ buffers. vec_len buffers.log ≡ LOG_ROWS) }
    {
        let row = Row {
            timer: 0,
            held: number,
            mark: None,
            outgoing: None,
        };
        let copy = TakenCopy {
            instant: 0,
            from: 0,
            to: 0,
            hop: 0,
            number,
            verdict: Verdict::Lost,
        };
        let rows = repeated(heap, row, counts.rows)?;
        let links = repeated(heap, LINK, counts.links)?;
        let losses = repeated(heap, LOSS, counts.losses)?;
        let acts = repeated(heap, Act::Play(0), counts.acts)?;
        let senders = repeated(heap, 0, usize::from(n))?;
        let log = repeated(heap, copy, LOG_ROWS)?;
        Ok(Buffers {
            rows,
            links,
            losses,
            acts,
            senders,
            log,
        })
    }
}
