// Rows of which none has something to send, as they stand between two instants, once the next instant is open.
ghost use Rattle.std.specs.Prelude.{◌≡◌, false, is_some, None};
ghost use Rattle.flood.specs.Instants.{any_sends, opened, row_opened};

use air::DelayRule;
use field::{Row, Rules};
use flood::open_row;
use numbering::Numbering;

// Most sensors wait, and most others have marked nothing: then the timer alone is written.
fn open_silent_row<N: Numbering, D: DelayRule>(
    rules: &Rules<N>,
    delay: &D,
    instant: u32,
    sensor: u8,
    row: &mut Row<N::Number>,
) -> bool
    requires { row.old.outgoing ≡ None }
    ensures row { row.new ≡ row_opened (N.Numbering.meaning rules.now.numbering.now) rules.now.settings (D.DelayRule.period delay.now) instant sensor row.old }
    ensures sends { result ≡ is_some row.new.outgoing }
{
    if row.timer > 1 {
        row.timer -= 1;
        return false;
    }
    if sensor != 0 && row.mark.is_none() {
        row.timer = u16::from(delay.period(rules.settings.tmax, instant, sensor));
        return false;
    }
    open_row(rules, delay, instant, sensor, row)
}

// Opens the first n rows, and tells whether one of them has something to send.
#[tactic(auto, using(flood::proofs::Changes::changed_none))]
pub fn open_silent_rows<N: Numbering, D: DelayRule>(
    rules: &Rules<N>,
    delay: &D,
    instant: u32,
    rows: &mut [Row<N::Number>],
) -> bool
    requires { any_sends rules.now.settings.n rows.old ≡ false }
    ensures rows { rows.new ≡ opened (N.Numbering.meaning rules.now.numbering.now) rules.now.settings (D.DelayRule.period delay.now) instant rows.old }
    ensures sends { result ≡ any_sends rules.now.settings.n rows.new }
{
    let count = rows.len().min(usize::from(rules.settings.n));
    let mut sends = false;
    for at in 0..count {
        if open_silent_row(rules, delay, instant, at as u8, &mut rows[at]) {
            sends = true;
        }
    }
    sends
}
