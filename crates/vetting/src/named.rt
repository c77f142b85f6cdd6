// What a call names beside the field.
ghost use Rattle.std.specs.Prelude.{◌≡◌};
ghost use Rattle.vetting.specs.Cases.{named_places, named_sensor};

use field::Damage;

// A sensor that is to be shown, or a damage.
#[derive(Clone, Copy, PartialEq, Eq, Debug)]
pub enum Named<Number> {
    Nothing,
    Sensor(u8),
    Damaged(Damage<Number>),
}

impl<Number: Copy> Named<Number> {
    // The sensor that it names, if it names one.
    pub fn sensor(self) -> Option<u8>
        ensures { result ≡ named_sensor self }
    {
        match self {
            Named::Nothing => None,
            Named::Sensor(sensor) => Some(sensor),
            Named::Damaged(damage) => Some(damage.sensor),
        }
    }

    // How many places there are up to that sensor.
    pub fn places(self) -> usize
        ensures { result ≡ named_places self }
    {
        match self {
            Named::Nothing => 0,
            Named::Sensor(sensor) => usize::from(sensor) + 1,
            Named::Damaged(damage) => usize::from(damage.sensor) + 1,
        }
    }
}
