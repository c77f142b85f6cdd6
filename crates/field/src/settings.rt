// A field's settings, which cannot exist broken.
ghost use Rattle.std.specs.Prelude.{◌+◌, ◌*◌, ◌≤◌};

// The count of sensors, the largest hop count, the longest forwarding period and the flood period
// in instants, and the seed of what is drawn.
#[derive(Clone, Copy)]
pub struct Settings {
    pub n: u8,
    pub hmax: u8,
    pub tmax: u8,
    pub f: u16,
    pub seed: u32,
    ghost n_least: { 1 ≤ n },
    ghost n_most: { n ≤ 200 },
    ghost hmax_least: { 1 ≤ hmax },
    ghost hmax_most: { hmax ≤ 15 },
    ghost tmax_least: { 1 ≤ tmax },
    ghost tmax_most: { tmax ≤ 60 },
    ghost f_least: { hmax * tmax + 1 ≤ f },
    ghost f_most: { f ≤ 65535 },
}
