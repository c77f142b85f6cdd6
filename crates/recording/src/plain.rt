// Records as plain numbers, which may break a limit.

// The settings and the numbering of a file's first record.
#[derive(Clone, Copy, PartialEq, Eq, Debug)]
pub struct Head {
    pub code: u8,
    pub smax: u8,
    pub n: u8,
    pub hmax: u8,
    pub tmax: u8,
    pub f: u16,
    pub seed: u32,
}

// A sensor's timer and mark, and the value of the number that it holds.
#[derive(Clone, Copy, PartialEq, Eq, Debug)]
pub struct Sensor {
    pub sensor: u8,
    pub timer: u16,
    pub value: u32,
    pub mark: Option<u8>,
}
