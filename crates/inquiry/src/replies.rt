// What `bound` answers to its words.
ghost use Rattle.std.specs.Prelude.{◌≡◌, map, string_bytes};
ghost use Rattle.numbering.specs.Four.{ring};
ghost use Rattle.inquiry.specs.Written.{report_text};
ghost use Rattle.inquiry.specs.Replies.{answer_text, reply_text};
ghost use Rattle.inquiry.specs.Answers.{texts, forecast_of, two, after_smax, ringed_answer, free_answer, answer_named, answer};

use crate::complaint::Complaint;
use crate::reading::{Name, both_in, first_of, pair_of, ringed_in};
use crate::reports::Report;
use numbering::{Circular, Differentiated, Free, Linear, Ringed, Rule, Settling};
use page::{Pen, Text};

// What is answered in each of the four numberings; of free there is nothing to report.
#[derive(Clone, Copy)]
enum Answer {
    Free,
    Linear(Report<Linear, u32>),
    Circular(Report<Circular, u8>),
    Differentiated(Report<Differentiated, u8>),
}

// An answer, of which the text is all that can be seen.
#[derive(Clone, Copy)]
pub struct Reply {
    answer: Answer,
}

impl Text for Reply {
    ghost text = { reply_text };

    fn put(&self, pen: &mut Pen) {
        match &self.answer {
            Answer::Free => pen.bytes(
                "free does not settle: it has no patience and no catch-up count\n".as_bytes(),
            ),
            Answer::Linear(report) => report.put(pen),
            Answer::Circular(report) => report.put(pen),
            Answer::Differentiated(report) => report.put(pen),
        }
    }
}

// The same, where the two words are all that is left.
fn report_words<N: Settling + Copy>(
    numbering: N,
    words: &[String],
) -> Result<Report<N, N::Number>, Complaint>
    ensures { texts (report_text N.Numbering.meaning N.Number.NumberKind.worth) result ≡ two (forecast_of N.Settling N.Number.NumberKind numbering) (map string_bytes words.now) }
{
    let (held, base) = pair_of(words)?;
    Report::new(numbering, held, base)
}

// An smax comes before the two words.
fn report_ringed<R: Rule>(words: &[String]) -> Result<Report<Ringed<R>, u8>, Complaint>
    ensures { texts (report_text (λ m. ring m.ring.smax (R.freshness m.ring.smax)) (λ x. x)) result ≡ after_smax (ringed_answer R.freshness R.patience R.catchup) (map string_bytes words.now) }
{
    let (smax, rest) = first_of(words)?;
    let numbering = ringed_in(smax).ok_or(Complaint::Smax)?;
    report_words(numbering, rest)
}

// Free has lawful numbers, but no patience and no catch-up count.
fn reply_free(words: &[String]) -> Result<Answer, Complaint>
    ensures { texts answer_text result ≡ two free_answer (map string_bytes words.now) }
{
    let (held, base) = pair_of(words)?;
    both_in(&Free, held, base)?;
    Ok(Answer::Free)
}

// The answer of the numbering that a name says, to the words after it.
fn answer_named(name: Name, words: &[String]) -> Result<Answer, Complaint>
    ensures { texts answer_text result ≡ answer_named name (map string_bytes words.now) }
{
    match name {
        Name::Free => reply_free(words),
        Name::Linear => Ok(Answer::Linear(report_words(Linear, words)?)),
        Name::Circular => Ok(Answer::Circular(report_ringed(words)?)),
        Name::Differentiated => Ok(Answer::Differentiated(report_ringed(words)?)),
    }
}

impl Reply {
    // The answer to the words that stand after the program's name.
    pub fn new(words: &[String]) -> Result<Reply, Complaint>
        ensures { texts reply_text result ≡ answer (map string_bytes words.now) }
    {
        let (name, rest) = first_of(words)?;
        let answer = answer_named(name.parse::<Name>()?, rest)?;
        Ok(Reply { answer })
    }
}
