// A sensor with a copy.
ghost use Rattle.std.specs.Prelude.{◌≡◌};
ghost use Rattle.flood.specs.Sensors.{accepted, taken};

use field::{Message, Row};
use numbering::Numbering;

// What becomes of a copy. One that forwards is accepted, too.
#[derive(Clone, Copy, PartialEq, Eq, Debug)]
pub enum Verdict {
    Lost,
    Refused,
    Accepted,
    Forwards,
}

// The verdict on a copy, and its receiver's row after it.
#[derive(Clone, Copy, PartialEq, Eq, Debug)]
pub struct Taken<Number> {
    pub verdict: Verdict,
    pub row: Row<Number>,
}

// A fresh copy: its number is held, and a receiver without a mark that may pass it on marks one hop less.
fn accepted<Number: Copy>(message: Message<Number>, row: Row<Number>) -> Taken<Number>
    ensures { result ≡ accepted message row }
{
    let held = message.number;
    match row.mark {
        None if message.hop >= 2 => {
            let mark = Some(message.hop - 1);
            Taken {
                verdict: Verdict::Forwards,
                row: Row { held, mark, ..row },
            }
        }
        _ => Taken {
            verdict: Verdict::Accepted,
            row: Row { held, ..row },
        },
    }
}

// What a receiver makes of a copy that the air carries, or not.
pub fn take_copy<N: Numbering>(
    numbering: &N,
    carried: bool,
    message: Message<N::Number>,
    row: Row<N::Number>,
) -> Taken<N::Number>
    ensures { result ≡ taken (N.Numbering.meaning numbering.now) carried message row }
{
    if !carried {
        let verdict = Verdict::Lost;
        return Taken { verdict, row };
    }
    if !numbering.fresh(message.number, row.held) {
        let verdict = Verdict::Refused;
        return Taken { verdict, row };
    }
    accepted(message, row)
}
