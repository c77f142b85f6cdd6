// Rows and sender bytes, as an instant opens and as it ends.
ghost use Rattle.std.specs.Prelude.{◌≡◌, ℕ, is_some};
ghost use Rattle.std.specs.List.{slice_get};
ghost use Rattle.flood.specs.Instants.{any_sends, changed, row_opened, opened, byte_of, sending, row_closed, closed, silent};

use crate::opening::{open_base, open_other, wait};
use air::DelayRule;
use field::{Row, Rules};
use numbering::Numbering;

// Changes each of the first n items, with its place, in ascending order; the others stay.
#[tactic(auto, using(crate::proofs::Changes::changed_none, crate::proofs::Changes::one_changed, crate::proofs::Changes::none_changed))]
fn change_each<T: Copy, F: Fn(u8, T) -> T>(items: &mut [T], n: u8, change: F)
    requires { F.IsAlwaysCallable change }
    ensures { (by : ℕ → T → T) → ((k : ℕ) (x y : T) → F.post change k x y → y ≡ by k x) → items.new ≡ changed by 0 n items.old }
{
    for place in 0..n {
        let at = usize::from(place);
        if at < items.len() {
            items[at] = change(place, items[at]);
        }
    }
}

// A sensor as an instant opens, and whether it then has something to send; the base stays as it is where it
// must send and no number follows. Most sensors wait, so that alone is done in place.
pub fn open_row<N: Numbering, D: DelayRule>(
    rules: &Rules<N>,
    delay: &D,
    instant: u32,
    sensor: u8,
    row: &mut Row<N::Number>,
) -> bool
    ensures row { row.new ≡ row_opened (N.Numbering.meaning rules.now.numbering.now) rules.now.settings (D.DelayRule.period delay.now) instant sensor row.old }
    ensures sends { result ≡ is_some row.new.outgoing }
{
    if row.timer > 1 {
        wait(row)
    } else if sensor == 0 {
        if let Some(opened) = open_base(rules, *row) {
            *row = opened;
        }
    } else {
        *row = open_other(delay, rules.settings.tmax, instant, sensor, *row);
    }
    row.outgoing.is_some()
}

// Opens the first n rows, and tells whether one of them has something to send.
#[tactic(auto, using(crate::proofs::Changes::changed_none))]
pub fn open_rows<N: Numbering, D: DelayRule>(
    rules: &Rules<N>,
    delay: &D,
    instant: u32,
    rows: &mut [Row<N::Number>],
) -> bool
    ensures rows { rows.new ≡ opened (N.Numbering.meaning rules.now.numbering.now) rules.now.settings (D.DelayRule.period delay.now) instant rows.old }
    ensures sends { result ≡ any_sends rules.now.settings.n rows.new }
{
    let mut sends = false;
    for sensor in 0..rules.settings.n {
        let at = usize::from(sensor);
        if at < rows.len() {
            sends |= open_row(rules, delay, instant, sensor, &mut rows[at]);
        }
    }
    sends
}

// A sensor without a row has nothing to send.
fn byte_of<Number: Copy>(rows: &[Row<Number>], sensor: u8) -> u8
    ensures { result ≡ byte_of (slice_get rows.now sensor) }
{
    match rows.get(usize::from(sensor)) {
        Some(row) => row.sender_byte(),
        None => 0,
    }
}

// Writes the first n sender bytes, by the rows.
pub fn send_bytes<Number: Copy>(n: u8, rows: &[Row<Number>], senders: &mut [u8])
    ensures { senders.new ≡ sending rows.now n senders.old }
{
    change_each(senders, n, |sensor, _| byte_of(rows, sensor))
}

// Ends an instant: the first n rows have nothing to send.
pub fn close_rows<Number: Copy>(n: u8, rows: &mut [Row<Number>])
    ensures { rows.new ≡ closed n rows.old }
{
    change_each(
        rows,
        n,
        |_, row| Row {
            outgoing: None,
            ..row
        },
    )
}

// Ends an instant: no sensor sends.
pub fn silence(n: u8, senders: &mut [u8])
    ensures { senders.new ≡ silent n senders.old }
{
    change_each(senders, n, |_, _| 0)
}
