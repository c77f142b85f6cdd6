// Each call of a run once, in an order that the types let pass. tests/misuse has orders that they refuse.

use air::{Air, DelayRule};
use answer_key::Failure;
use field::{Damage, Settings};
use filed::Filed;
use history::Counts;
use run::{Idle, Lent};

// Of a field where one copy goes in the first instant and none in the second, with room for its file on the page.
pub fn play_in_order<N: Filed, D: DelayRule, A: Air>(
    settings: Settings,
    lent: &mut Lent<N, D, A>,
    damage: Damage<N::Number>,
    page: &mut [u8],
) -> Result<Counts, Failure> {
    let run = Idle::begin(settings, lent.links.len(), lent)?;
    let mut instant = run.open(lent)?;
    let _copy = instant.carry(lent)?;
    let mut run = instant.close(lent)?;
    run.damage(lent, damage)?;
    let _row = run.look(lent, 0)?;
    let mut log = [];
    let _played = run.play(lent, 1, &mut log);
    let _size = run.write(lent, &[], page)?;
    let counts = run.finish(lent)?;
    Ok(counts)
}
