// The line of each record.
ghost use Rattle.std.specs.Prelude.{◌≡◌};
ghost use Rattle.page.specs.Pages.{piece_text};
ghost use Rattle.page.specs.Pens.{Wrote};
ghost use Rattle.listing.specs.Lines.{numbering_name, mark_words, field_line, row_line, link_line, loss_line, play_line};

use field::{Link, Loss};
use page::{Pen, Piece};
use recording::{Head, Sensor};

// By the code's byte: any file has a listing, also one whose code is none of the four.
fn numbering_name(code: u8) -> &'static str
    ensures { result.now ≡ numbering_name code }
{
    match code {
        0 => "free",
        1 => "linear",
        2 => "circular",
        _ => "differentiated",
    }
}

#[tactic(auto, unfolding(crate::specs::Lines::field_line))]
pub fn put_field(pen: &mut Pen, head: Head)
    ensures { Wrote pen.old pen.new (field_line head.code head.smax head.n head.hmax head.tmax head.f head.seed) }
{
    pen.line(&[
        "field ".into(),
        numbering_name(head.code).into(),
        " smax ".into(),
        head.smax.into(),
        " sensors ".into(),
        head.n.into(),
        " hmax ".into(),
        head.hmax.into(),
        " tmax ".into(),
        head.tmax.into(),
        " f ".into(),
        head.f.into(),
        " seed ".into(),
        head.seed.into(),
        "\n".into(),
    ])
}

fn mark_piece(mark: Option<u8>) -> Piece<'static>
    ensures { piece_text result ≡ mark_words mark }
{
    match mark {
        Some(hop) => hop.into(),
        None => "none".into(),
    }
}

// A row, or a damage, by its first word.
#[tactic(auto, unfolding(crate::specs::Lines::row_line))]
pub fn put_row(pen: &mut Pen, word: &str, sensor: Sensor)
    ensures { Wrote pen.old pen.new (row_line word.now sensor.sensor sensor.timer sensor.value sensor.mark) }
{
    pen.line(&[
        word.into(),
        " ".into(),
        sensor.sensor.into(),
        " timer ".into(),
        sensor.timer.into(),
        " holds ".into(),
        sensor.value.into(),
        " mark ".into(),
        mark_piece(sensor.mark),
        "\n".into(),
    ])
}

#[tactic(auto, unfolding(crate::specs::Lines::link_line))]
pub fn put_link(pen: &mut Pen, link: Link)
    ensures { Wrote pen.old pen.new (link_line link) }
{
    pen.line(&[
        "link ".into(),
        link.from.into(),
        " to ".into(),
        link.to.into(),
        " label ".into(),
        link.label.into(),
        "\n".into(),
    ])
}

#[tactic(auto, unfolding(crate::specs::Lines::loss_line))]
pub fn put_loss(pen: &mut Pen, loss: Loss)
    ensures { Wrote pen.old pen.new (loss_line loss) }
{
    pen.line(&[
        "loss ".into(),
        loss.from.into(),
        " to ".into(),
        loss.to.into(),
        " at ".into(),
        loss.instant.into(),
        "\n".into(),
    ])
}

#[tactic(auto, unfolding(crate::specs::Lines::play_line))]
pub fn put_play(pen: &mut Pen, budget: u32)
    ensures { Wrote pen.old pen.new (play_line budget) }
{
    pen.line(&["play ".into(), budget.into(), "\n".into()])
}
