// The lines of a key.
ghost use Rattle.std.specs.Prelude.{◌≡◌, ◌+◌, ◌*◌, ◌≤◌, length};
ghost use Rattle.std.specs.Option.{ok_or};
ghost use Rattle.page.specs.Pages.{fitting, written};
ghost use Rattle.page.specs.Pens.{Wrote};
ghost use Rattle.refusal.specs.declared.RunFault.TheVariants.{NoRoom};
ghost use Rattle.answer_key.specs.Lines.{verdict_word, copy_line, refusal_line, last_line, copy_lines, key_text};
ghost use Rattle.answer_key.specs.Reading.{PrintLaws};

use crate::line::{put_bytes, put_number, put_word};
use flood::Verdict;
use history::TakenCopy;
use numbering::NumberKind;
use page::Pen;
use refusal::RunFault;

/// No line has more bytes: 10, 3, 3, 3, 10 and 8 in a copy's six words, and one behind each.
pub const LONGEST_LINE: usize = 43;

/// The refusal that a key ends with: its number, and the index of the record at which it came, counted from 0.
#[derive(Clone, Copy, PartialEq, Eq, Debug)]
pub struct KeyRefusal {
    pub number: u8,
    pub index: usize,
}

fn verdict_word(verdict: Verdict) -> &'static str
    ensures { result.now ≡ verdict_word verdict }
{
    match verdict {
        Verdict::Lost => "lost",
        Verdict::Refused => "refused",
        Verdict::Accepted => "accepted",
        Verdict::Forwards => "forwards",
    }
}

#[tactic(auto, unfolding(crate::specs::Lines::copy_line))]
fn put_copy<K: NumberKind>(pen: &mut Pen, copy: TakenCopy<K>)
    ensures line { Wrote pen.old pen.new (copy_line K.NumberKind.worth copy) }
    ensures short { length (copy_line K.NumberKind.worth copy) ≤ LONGEST_LINE }
{
    let mut line = [0; LONGEST_LINE];
    let at = put_number(&mut line, 0, copy.instant.into(), b' ');
    let at = put_number(&mut line, at, copy.from.into(), b' ');
    let at = put_number(&mut line, at, copy.to.into(), b' ');
    let at = put_number(&mut line, at, copy.hop.into(), b' ');
    let at = put_number(&mut line, at, copy.number.value().into(), b' ');
    let word = verdict_word(copy.verdict).as_bytes();
    let end = put_word(&mut line, at, word, b'\n');
    put_bytes(pen, &line[..end])
}

#[tactic(auto, unfolding(crate::specs::Lines::refusal_line))]
fn put_refusal(pen: &mut Pen, refusal: KeyRefusal)
    ensures line { Wrote pen.old pen.new (refusal_line refusal) }
    ensures short { length (refusal_line refusal) ≤ LONGEST_LINE }
{
    let index = refusal.index as u64;
    pen.line(&[
        "refusal ".into(),
        refusal.number.into(),
        " ".into(),
        index.into(),
        "\n".into(),
    ])
}

fn put_last(pen: &mut Pen, refusal: Option<KeyRefusal>)
    ensures line { Wrote pen.old pen.new (last_line refusal) }
    ensures short { length (last_line refusal) ≤ LONGEST_LINE }
{
    if let Some(refusal) = refusal {
        put_refusal(pen, refusal)
    }
}

fn put_copies<K: NumberKind>(pen: &mut Pen, copies: &[TakenCopy<K>])
    ensures lines { Wrote pen.old pen.new (copy_lines K.NumberKind.worth copies.now) }
    ensures short { length (copy_lines K.NumberKind.worth copies.now) ≤ LONGEST_LINE * length copies.now }
{
    for copy in copies {
        put_copy(pen, *copy);
    }
}

fn put_key<K: NumberKind>(pen: &mut Pen, copies: &[TakenCopy<K>], refusal: Option<KeyRefusal>)
    ensures text { Wrote pen.old pen.new (key_text K.NumberKind.worth copies.now refusal) }
    ensures short { length (copy_lines K.NumberKind.worth copies.now) ≤ LONGEST_LINE * length copies.now }
    ensures last_short { length (last_line refusal) ≤ LONGEST_LINE }
{
    put_copies(pen, copies);
    put_last(pen, refusal)
}

/// Prints copies, a line for each, and a refusal where one is given, at the front of a page, and answers how many bytes that took;
/// the bytes behind them stay. Its definition is `key_text`.
///
/// A copy's line is `instant sender receiver hop number verdict`, with one space between two words and a line feed behind the last; its
/// verdict is `lost`, `refused`, `accepted` or `forwards`. The refusal's line is `refusal number index`. Numbers are in decimal.
///
/// It declines with `NoRoom` where the text does not fit, and the page stays as it was. No line has more than `LONGEST_LINE` bytes
/// (`short`, `last_short`), and whoever reads the text has the copies and the refusal back (`laws`).
pub fn print<K: NumberKind>(
    copies: &[TakenCopy<K>],
    refusal: Option<KeyRefusal>,
    page: &mut [u8],
) -> Result<usize, RunFault>
    ensures value { result ≡ ok_or (fitting (key_text K.NumberKind.worth copies.now refusal) page.old) NoRoom }
    ensures page { page.new ≡ written (key_text K.NumberKind.worth copies.now refusal) page.old }
    ensures short { length (copy_lines K.NumberKind.worth copies.now) ≤ LONGEST_LINE * length copies.now }
    ensures last_short { length (last_line refusal) ≤ LONGEST_LINE }
    ensures laws { PrintLaws K.NumberKind.among K.NumberKind.of K.NumberKind.worth }
{
    // Where even the longest lines have room, the text need not be measured before it is written.
    if page.len() / LONGEST_LINE <= copies.len() {
        let mut nowhere = Pen {
            page: &mut [],
            at: 0,
        };
        put_key(&mut nowhere, copies, refusal);
        if nowhere.at > page.len() {
            return Err(RunFault::NoRoom);
        }
    }
    let mut pen = Pen { page, at: 0 };
    put_key(&mut pen, copies, refusal);
    Ok(pen.at)
}
