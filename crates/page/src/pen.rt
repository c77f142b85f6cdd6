// A place on a page, and what is put there.
ghost use Rattle.std.specs.Prelude.{◌≤◌, length};
ghost use Rattle.page.specs.Pages.{last};

use crate::{Piece, Text};

// A page, and the place on it where the next byte goes. What goes past the page's end is dropped, but counted.
#[derive(Drop)]
pub struct Pen<'a> {
    pub page: &'a mut [u8],
    pub at: usize,
    // A slice is never longer than this, and the place stops there.
    ghost in_memory: { length page.now ≤ last },
    ghost in_range: { at ≤ last },
}

impl<'a> Pen<'a> {
    ghost use Rattle.page.specs.Pages.{line};
    ghost use Rattle.page.specs.Pens.{Wrote};

    // Puts bytes at the pen's place, and moves it behind them.
    pub fn bytes(&mut self, bytes: &[u8])
        ensures { Wrote self.old self.new bytes.now }
    {
        bytes.put(self);
    }

    // Puts pieces at the pen's place, one behind another, and moves it behind them.
    pub fn line(&mut self, pieces: &[Piece])
        ensures { Wrote self.old self.new (line pieces.now) }
    {
        pieces.put(self);
    }
}
