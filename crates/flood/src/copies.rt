// The copies of an open instant, in the order of the links.
ghost use Rattle.std.specs.Prelude.{◌≡◌};
ghost use Rattle.flood.specs.Copies.{message_on, copy_here, next_copy};

use field::{Link, Message, Row};

// What goes over a link: its sender's outgoing message, if there is one.
pub fn message_on<Number: Copy>(rows: &[Row<Number>], link: Link) -> Option<Message<Number>>
    ensures { result ≡ message_on rows.now link }
{
    rows.get(usize::from(link.from))?.outgoing
}

fn copy_here<Number: Copy>(rows: &[Row<Number>], links: &[Link], place: usize) -> bool
    ensures { result ≡ copy_here rows.now links.now place }
{
    match links.get(place) {
        Some(link) => message_on(rows, *link).is_some(),
        None => false,
    }
}

// The place of the next copy from a position on, or none is left.
pub fn next_copy<Number: Copy>(
    rows: &[Row<Number>],
    links: &[Link],
    position: usize,
) -> Option<usize>
    ensures { result ≡ next_copy rows.now links.now position }
{
    (position..links.len()).find(|place| copy_here(rows, links, *place))
}
