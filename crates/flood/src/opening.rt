// A sensor as an instant opens.
ghost use Rattle.std.specs.Prelude.{◌≡◌};
ghost use Rattle.flood.specs.Sensors.{waits, base_opened, other_opened};

use air::DelayRule;
use field::{Message, Row, Rules};
use numbering::Numbering;

// A timer above 1 falls by one; no outgoing message stays.
pub fn wait<Number: Copy>(row: &mut Row<Number>)
    ensures { row.new ≡ waits row.old }
{
    row.timer = row.timer.saturating_sub(1);
    row.outgoing = None;
}

fn waiting<Number: Copy>(mut row: Row<Number>) -> Row<Number>
    ensures { result ≡ waits row }
{
    wait(&mut row);
    row
}

// The base, which is sensor 0. At 1 it takes the next number and sends it, or there is none.
pub fn open_base<N: Numbering>(rules: &Rules<N>, row: Row<N::Number>) -> Option<Row<N::Number>>
    ensures { result ≡ base_opened (N.Numbering.meaning rules.now.numbering.now) rules.now.settings row }
{
    if row.timer > 1 {
        return Some(waiting(row));
    }
    let number = rules.numbering.next(row.held)?;
    let hop = rules.settings.hmax;
    Some(Row {
        timer: rules.settings.f,
        held: number,
        mark: row.mark,
        outgoing: Some(Message { hop, number }),
    })
}

// Another sensor. At 1 it sends what it has marked, if anything, and begins a period anew.
pub fn open_other<Number: Copy, D: DelayRule>(
    delay: &D,
    tmax: u8,
    instant: u32,
    sensor: u8,
    row: Row<Number>,
) -> Row<Number>
    ensures { result ≡ other_opened (D.DelayRule.period delay.now tmax instant sensor) row }
{
    if row.timer > 1 {
        return waiting(row);
    }
    let number = row.held;
    let outgoing = match row.mark {
        Some(hop) => Some(Message { hop, number }),
        None => None,
    };
    Row {
        timer: u16::from(delay.period(tmax, instant, sensor)),
        held: number,
        mark: None,
        outgoing,
    }
}
