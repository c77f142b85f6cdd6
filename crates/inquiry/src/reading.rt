// What stands in words.
ghost use Rattle.std.specs.Prelude.{◌≡◌, map, None, string_bytes, MatchOption, MatchResult};
ghost use Rattle.std.specs.Option.{ok_or};
ghost use Rattle.inquiry.specs.declared.complaint.Complaint.TheVariants.{Words, Numbering as NoNumbering};
ghost use Rattle.inquiry.specs.Answers.{both_in};
ghost use Rattle.inquiry.specs.Reading.{first_of, pair_of, named, lawful_in, smax_in};

use crate::complaint::Complaint;
use numbering::{NumberKind, Numbering, Ringed, Rule};
use std::str::FromStr;
use words::number_in;

// The first word, and the words after it.
pub fn first_of(words: &[String]) -> Result<(&str, &[String]), Complaint>
    ensures { MatchResult result (λ p. first_of (map string_bytes words.now) ≡ Some (p.0.now, map string_bytes p.1.now)) (λ e. (first_of (map string_bytes words.now) ≡ None) × (e ≡ Words)) }
{
    let (word, rest) = words.split_first().ok_or(Complaint::Words)?;
    Ok((word.as_str(), rest))
}

// The words, where they are two.
pub fn pair_of(words: &[String]) -> Result<(&str, &str), Complaint>
    ensures { MatchResult result (λ p. pair_of (map string_bytes words.now) ≡ Some (p.0.now, p.1.now)) (λ e. (pair_of (map string_bytes words.now) ≡ None) × (e ≡ Words)) }
{
    let [v, w] = words else {
        return Err(Complaint::Words);
    };
    Ok((v.as_str(), w.as_str()))
}

// The four numberings, by name.
#[derive(Clone, Copy, PartialEq, Eq, Debug)]
pub enum Name {
    Free,
    Linear,
    Circular,
    Differentiated,
}

impl FromStr for Name {
    type Err = Complaint;

    ghost from_str_gives = { λ word r. r ≡ ok_or (named word) NoNumbering };

    fn from_str(word: &str) -> Result<Name, Complaint> {
        match word {
            "free" => Ok(Name::Free),
            "linear" => Ok(Name::Linear),
            "circular" => Ok(Name::Circular),
            "differentiated" => Ok(Name::Differentiated),
            _ => Err(Complaint::Numbering),
        }
    }
}

// The lawful number of a numbering that a word writes.
pub fn lawful_in<N: Numbering>(numbering: &N, word: &str) -> Option<N::Number>
    ensures { result ≡ lawful_in (N.Numbering.meaning numbering.now) N.Number.NumberKind.of word.now }
{
    let number = N::Number::of_value(number_in(word)?)?;
    numbering.lawful(number).then_some(number)
}

// The numbering over a ring whose smax a word writes.
pub fn ringed_in<R: Rule>(word: &str) -> Option<Ringed<R>>
    ensures { MatchOption result (smax_in word.now ≡ None) (λ m. smax_in word.now ≡ Some m.ring.smax) }
{
    Ringed::new(u8::of_value(number_in(word)?)?)
}

// The lawful numbers of the sensor and of the base, from two words.
pub fn both_in<N: Numbering>(
    numbering: &N,
    held: &str,
    base: &str,
) -> Result<(N::Number, N::Number), Complaint>
    ensures { result ≡ both_in (N.Numbering.meaning numbering.now) N.Number.NumberKind.of held.now base.now }
{
    let held = lawful_in(numbering, held).ok_or(Complaint::Held)?;
    let base = lawful_in(numbering, base).ok_or(Complaint::Base)?;
    Ok((held, base))
}
