// What every call of a run is lent.
ghost use Rattle.std.specs.Prelude.{◌≡◌, set, take};
ghost use Rattle.flood.specs.Copies.{message_on};

use field::{Link, Message, Row};
use flood::{message_on, send_bytes};
use numbering::Numbering;

/// What a field is played by and with, lent to every call of a run, the same each time. A run itself holds none of it.
///
/// Of the links only the first ones are looked at, as many as begin was told; of rows and sender bytes only the first n, one for each
/// sensor. What lies past them is neither read nor altered. A call lends the air exactly the told links and the first n bytes.
#[derive(Drop)]
pub struct Lent<'n, 'd, 'a, 'l, 'r, 's, N: Numbering, D, A> {
    /// Which numbers the base puts on its floods, and which copies are fresh.
    pub numbering: &'n N,
    /// How many instants a sensor waits before it forwards: a period from 1 to tmax.
    pub delay: &'d D,
    /// Which copies come through.
    pub air: &'a A,
    pub links: &'l [Link],
    pub rows: &'r mut [Row<N::Number>],
    /// 1 for a sensor that sends in the open instant, and else 0.
    pub senders: &'s mut [u8],
}

impl<N: Numbering, D, A> Lent<'_, '_, '_, '_, '_, '_, N, D, A> {
    ghost use Rattle.flood.specs.Instants.{sending};
    ghost use Rattle.run.specs.Standing.{SameLoans};

    // What goes over a link: its sender's outgoing message, if there is one.
    pub(crate) fn message_over(&self, link: Link) -> Option<Message<N::Number>>
        ensures { result ≡ message_on self.now.rows.now link }
    {
        let rows = &*self.rows;
        message_on(rows, link)
    }

    // The first n sender bytes, by the rows.
    pub(crate) fn send_bytes(&mut self, n: u8)
        ensures senders { self.new.senders.now ≡ sending self.old.rows.now n self.old.senders.now }
        ensures rows { self.new.rows.now ≡ self.old.rows.now }
        ensures lent { SameLoans self.old self.new }
    {
        let rows = &mut *self.rows;
        send_bytes(n, rows, &mut *self.senders);
    }
}

// The first items of a slice: all of them, where there are fewer.
pub fn front<T>(items: &[T], count: usize) -> &[T]
    ensures { result.now ≡ take count items.now }
{
    &items[..count.min(items.len())]
}

// Overwrites an item; past the end there is none.
#[tactic(auto, using(std::proofs::lemmas::List::set_past))]
pub fn put<T: Copy>(items: &mut [T], at: usize, item: T)
    ensures { items.new ≡ set items.old at item }
{
    if at < items.len() {
        items[at] = item;
    }
}
