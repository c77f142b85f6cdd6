// The words of each line.
ghost use Rattle.std.specs.Prelude.{◌≡◌};
ghost use Rattle.entries.specs.Lines.{code_in, mark_in, head_in, sensor_in, link_in, loss_in, budget_in, entry_in};

use crate::entry::Entry;
use field::{Link, Loss};
use recording::{Head, Sensor};
use words::{byte_in, number_in, two_bytes_in};

fn code_in(name: &str) -> Option<u8>
    ensures { result ≡ code_in name.now }
{
    match name {
        "free" => Some(0),
        "linear" => Some(1),
        "circular" => Some(2),
        "differentiated" => Some(3),
        _ => None,
    }
}

fn mark_in(word: &str) -> Option<Option<u8>>
    ensures { result ≡ mark_in word.now }
{
    match word {
        "none" => Some(None),
        _ => match byte_in(word)? {
            255 => None, // as a byte it is no mark
            hop => Some(Some(hop)),
        },
    }
}

fn head_in(words: &[&str]) -> Option<Head>
    ensures { result ≡ head_in words.now }
{
    let [
        name,
        "smax",
        smax,
        "sensors",
        n,
        "hmax",
        hmax,
        "tmax",
        tmax,
        "f",
        f,
        "seed",
        seed,
    ] = *words
    else {
        return None;
    };
    Some(Head {
        code: code_in(name)?,
        smax: byte_in(smax)?,
        n: byte_in(n)?,
        hmax: byte_in(hmax)?,
        tmax: byte_in(tmax)?,
        f: two_bytes_in(f)?,
        seed: number_in(seed)?,
    })
}

fn sensor_in(words: &[&str]) -> Option<Sensor>
    ensures { result ≡ sensor_in words.now }
{
    let [sensor, "timer", timer, "holds", value, "mark", mark] = *words else {
        return None;
    };
    Some(Sensor {
        sensor: byte_in(sensor)?,
        timer: two_bytes_in(timer)?,
        value: number_in(value)?,
        mark: mark_in(mark)?,
    })
}

fn link_in(words: &[&str]) -> Option<Link>
    ensures { result ≡ link_in words.now }
{
    let [from, "to", to, "label", label] = *words else {
        return None;
    };
    Some(Link {
        from: byte_in(from)?,
        to: byte_in(to)?,
        label: byte_in(label)?,
    })
}

fn loss_in(words: &[&str]) -> Option<Loss>
    ensures { result ≡ loss_in words.now }
{
    let [from, "to", to, "at", instant] = *words else {
        return None;
    };
    Some(Loss {
        from: byte_in(from)?,
        to: byte_in(to)?,
        instant: number_in(instant)?,
    })
}

fn budget_in(words: &[&str]) -> Option<u32>
    ensures { result ≡ budget_in words.now }
{
    let [budget] = *words else {
        return None;
    };
    number_in(budget)
}

// What the words of a line say, or that it is no line of a listing.
pub fn entry_in(words: &[&str]) -> Option<Entry>
    ensures { result ≡ entry_in words.now }
{
    let (first, words) = words.split_first()?;
    match *first {
        "field" => Some(Entry::Field(head_in(words)?)),
        "sensor" => Some(Entry::Row(sensor_in(words)?)),
        "link" => Some(Entry::Link(link_in(words)?)),
        "loss" => Some(Entry::Loss(loss_in(words)?)),
        "play" => Some(Entry::Play(budget_in(words)?)),
        "damage" => Some(Entry::Damage(sensor_in(words)?)),
        _ => None,
    }
}
