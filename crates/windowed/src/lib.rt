// A fifth numbering, made outside the crate of the four: numbers of 16 bits with a window.
#![tactic(auto)]

ghost use Rattle.std.specs.Prelude.{◌≡◌, ◌≤◌, MatchOption};
ghost use Rattle.windowed.specs.Window.{windowed, window_catch_up};
ghost use Rattle.std.proofs.Common.{rules};
ghost use Rattle.windowed.specs.WindowSettles.{window_settles};

use numbering::{Numbering, Settling};

mod serial;

pub use serial::Serial;

#[derive(Clone, Copy)]
pub struct Windowed {
    window: u16,
    ghost some: { 1 ≤ window },
}

impl Windowed {
    // None exactly where the window is 0.
    pub fn new(window: u16) -> Option<Windowed>
        ensures { MatchOption result (window ≡ 0) (λ w. w.window ≡ window) }
    {
        if window == 0 {
            None
        } else {
            Some(Windowed { window })
        }
    }
}

impl Numbering for Windowed {
    type Number = Serial;

    ghost meaning = { λ w. windowed w.window };

    ghost follows = { Prim.search rules };

    ghost among = { Prim.search rules };

    fn lawful(&self, _number: Serial) -> bool {
        true
    }

    fn next(&self, number: Serial) -> Option<Serial> {
        let value = number.value.checked_add(1)?;
        Some(Serial { value })
    }

    fn fresh(&self, copy: Serial, held: Serial) -> bool {
        copy.value > held.value || held.value.saturating_sub(copy.value) > self.window
    }
}

impl Settling for Windowed {
    ghost patience = { λ w. w.window };

    ghost catchup = { λ w. window_catch_up w.window };

    ghost settles = { λ m. window_settles m.window m.some };

    fn figures(&self, held: Serial, base: Serial) -> (u64, u64) {
        let patience = u64::from(self.window);
        let ahead = u64::from(held.value.saturating_sub(base.value));
        let wait = if ahead > 2 * patience {
            0
        } else {
            ahead.saturating_sub(1)
        };
        (patience, wait + patience)
    }
}
