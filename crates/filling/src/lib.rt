// One fill of a lent buffer, whatever it is filled with.
#![tactic(auto)]

ghost use Rattle.std.specs.Prelude.{◌≡◌, ℕ, Option};
ghost use Rattle.filling.specs.Filled.{filled};

// What a buffer is filled with: an item, or none, for each of some places. It is a trait, and not a
// closure, since a public call asks nothing of its caller.
pub trait Source {
    type Item: Copy;

    ghost size: { Self → ℕ };

    ghost at: { Self → ℕ → Option Self.Item };

    // How many places it fills.
    fn places(&self) -> usize
        ensures { result ≡ size self.now };

    // The item for a place.
    fn item(&self, place: usize) -> Option<Self::Item>
        ensures { result ≡ at self.now place };
}

// Fills the first places, as far as the buffer goes; the others stay.
pub fn fill<S: Source>(source: &S, out: &mut [S::Item])
    ensures { out.new ≡ filled (S.Source.at source.now) (S.Source.size source.now) out.old }
{
    let count = source.places().min(out.len());
    // by index: of what an adapter of `iter_mut` writes, a proof knows nothing
    for place in 0..count {
        if let Some(item) = source.item(place) {
            out[place] = item;
        }
    }
}
