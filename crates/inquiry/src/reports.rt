// A forecast, as text.
ghost use Rattle.std.specs.Prelude.{◌≡◌, length};
ghost use Rattle.page.specs.Pens.{Wrote};
ghost use Rattle.inquiry.specs.Answers.{texts, forecast_of, Asked, Lent};
ghost use Rattle.inquiry.specs.Written.{bound_line, stop_line, flood_line, flood_lines, lent_floods, lent_text, report_text};

use crate::complaint::Complaint;
use crate::reading::both_in;
use hearing::{Forecast, Heard, foretell, hear_floods};
use numbering::{NumberKind, Settling};
use page::{Pen, Text};

// At most so many floods are listed.
const LISTED: u64 = 512;

/// As many bytes as an answer has at most: 512 lines of 56 bytes, one of 61 before them and one of 32 behind. It is not proved, and only
/// spares time: a page of so many bytes has not to be made longer.
pub const ANSWER_ROOM: usize = 28_765;

// The numbers of a sensor and a base, in two words, and what is foretold of them.
fn asked<N: Settling>(
    numbering: &N,
    held: &str,
    base: &str,
) -> Result<(N::Number, N::Number, Forecast), Complaint>
    ensures { Asked N.Settling N.Number.NumberKind numbering.now held.now base.now result }
{
    let (held, base) = both_in(numbering, held, base)?;
    let forecast = foretell(numbering, held, base)?;
    Ok((held, base, forecast))
}

/// What is told of a sensor that holds one number under a base that holds another, in a numbering that is lent: it may be any settling
/// one. Its text (`lent_text`) is patience and catch-up count, then a line for each of at most 512 floods.
#[derive(Drop)]
pub struct LentReport<'n, N, Number> {
    numbering: &'n N,
    held: Number,
    base: Number,
    forecast: Forecast,
}

impl<'n, N: Settling> LentReport<'n, N, N::Number> {
    /// Of a sensor and a base that hold the numbers in two words, decimal and of 32 bits. The text of what it answers is the forecast of
    /// these numbers (`Lent`), or it answers `Held` or `Base`, whichever is first no lawful number.
    pub fn new(
        numbering: &'n N,
        held: &str,
        base: &str,
    ) -> Result<LentReport<'n, N, N::Number>, Complaint>
        ensures { Lent N.Settling N.Number.NumberKind numbering.now held.now base.now result }
    {
        let (held, base, forecast) = asked(numbering, held, base)?;
        Ok(LentReport {
            numbering,
            held,
            base,
            forecast,
        })
    }
}

// The same in a numbering of its own, which is copied.
#[derive(Clone, Copy)]
pub struct Report<N, Number> {
    numbering: N,
    held: Number,
    base: Number,
    forecast: Forecast,
}

impl<N: Settling + Copy> Report<N, N::Number> {
    // Of a sensor and a base that hold the numbers in two words.
    pub fn new(numbering: N, held: &str, base: &str) -> Result<Report<N, N::Number>, Complaint>
        ensures { texts (report_text N.Numbering.meaning N.Number.NumberKind.worth) result ≡ forecast_of N.Settling N.Number.NumberKind numbering held.now base.now }
    {
        let (held, base, forecast) = asked(&numbering, held, base)?;
        Ok(Report {
            numbering,
            held,
            base,
            forecast,
        })
    }
}

#[tactic(auto, unfolding(crate::specs::Written::bound_line))]
fn put_bound(pen: &mut Pen, forecast: Forecast)
    ensures { Wrote pen.old pen.new (bound_line forecast.patience forecast.catch_up) }
{
    pen.line(&[
        "patience ".into(),
        forecast.patience.into(),
        ", catch-up ".into(),
        forecast.catch_up.into(),
        "\n".into(),
    ])
}

#[tactic(auto, unfolding(crate::specs::Written::flood_line))]
fn put_flood<K: NumberKind>(pen: &mut Pen, place: u64, flood: Heard<K>)
    ensures { Wrote pen.old pen.new (flood_line K.NumberKind.worth place flood) }
{
    pen.line(&[
        "flood ".into(),
        place.into(),
        ": number ".into(),
        flood.number.value().into(),
        " ".into(),
        flood.verdict.word().into(),
        ", holds ".into(),
        flood.held.value().into(),
        "\n".into(),
    ])
}

fn stop_line(catch_up: u64, count: u64) -> &'static str
    ensures { result.now ≡ stop_line catch_up count }
{
    if count >= catch_up {
        ""
    } else if count == LISTED {
        "the list stops after 512 floods\n"
    } else {
        "no number follows\n"
    }
}

#[tactic(auto, using(page::proofs::Wrotes::wrote_as))]
fn put_stop(pen: &mut Pen, forecast: Forecast, count: u64)
    ensures { Wrote pen.old pen.new (stop_line forecast.catch_up count) }
{
    pen.bytes(stop_line(forecast.catch_up, count).as_bytes())
}

// A line for each flood that is listed; answers how many they are.
#[tactic(auto, using(page::proofs::Wrotes::wrote_nothing, crate::proofs::Listed::one_left))]
fn put_floods<N: Settling>(pen: &mut Pen, report: &LentReport<N, N::Number>) -> u64
    ensures lines { Wrote pen.old pen.new (flood_lines N.Number.NumberKind.worth 1 (lent_floods N.Numbering.meaning report.now)) }
    ensures count { result ≡ length (lent_floods N.Numbering.meaning report.now) }
{
    let most = report.forecast.catch_up.min(LISTED);
    let mut count = 0;
    for flood in hear_floods(report.numbering, report.held, report.base, most) {
        count += 1;
        put_flood(pen, count, flood);
    }
    count
}

// Patience and catch-up count, then a line for each flood.
impl<'n, N: Settling> Text for LentReport<'n, N, N::Number> {
    ghost text = { lent_text N.Numbering.meaning N.Number.NumberKind.worth };

    fn put(&self, pen: &mut Pen) {
        put_bound(pen, self.forecast);
        let count = put_floods(pen, self);
        put_stop(pen, self.forecast, count)
    }
}

impl<N: Settling> Text for Report<N, N::Number> {
    ghost text = { report_text N.Numbering.meaning N.Number.NumberKind.worth };

    fn put(&self, pen: &mut Pen) {
        let lent = LentReport {
            numbering: &self.numbering,
            held: self.held,
            base: self.base,
            forecast: self.forecast,
        };
        lent.put(pen)
    }
}
