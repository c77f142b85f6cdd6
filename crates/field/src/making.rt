// Settings made, and changed by value.
ghost use Rattle.field.specs.Making.{HasSettings, Made};

use crate::settings::Settings;
use refusal::FieldFault;

impl Settings {
    pub fn new(n: u8, hmax: u8, tmax: u8, f: u16, seed: u32) -> Result<Settings, FieldFault>
        ensures { Made n hmax tmax f seed result }
    {
        let least = u16::from(hmax) * u16::from(tmax) + 1;
        if n < 1 || n > 200 || hmax < 1 || hmax > 15 || tmax < 1 || tmax > 60 || f < least {
            return Err(FieldFault::BadSetting);
        }
        Ok(Settings {
            n,
            hmax,
            tmax,
            f,
            seed,
        })
    }

    // One for each setting: a closure that changed the parts would have to name them all the same.
    pub fn with_n(self, n: u8) -> Result<Settings, FieldFault>
        ensures { Made n self.hmax self.tmax self.f self.seed result }
    {
        Settings::new(n, self.hmax, self.tmax, self.f, self.seed)
    }

    pub fn with_hmax(self, hmax: u8) -> Result<Settings, FieldFault>
        ensures { Made self.n hmax self.tmax self.f self.seed result }
    {
        Settings::new(self.n, hmax, self.tmax, self.f, self.seed)
    }

    pub fn with_tmax(self, tmax: u8) -> Result<Settings, FieldFault>
        ensures { Made self.n self.hmax tmax self.f self.seed result }
    {
        Settings::new(self.n, self.hmax, tmax, self.f, self.seed)
    }

    pub fn with_f(self, f: u16) -> Result<Settings, FieldFault>
        ensures { Made self.n self.hmax self.tmax f self.seed result }
    {
        Settings::new(self.n, self.hmax, self.tmax, f, self.seed)
    }

    pub fn with_seed(self, seed: u32) -> Settings
        ensures { HasSettings self.n self.hmax self.tmax self.f seed result }
    {
        Settings {
            n: self.n,
            hmax: self.hmax,
            tmax: self.tmax,
            f: self.f,
            seed,
        }
    }
}
