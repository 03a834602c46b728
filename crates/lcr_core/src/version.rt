// The size class of a symbol: version v, from 1 to 64, has 17 + 4 v modules on a side.
ghost use Rattle.std.specs.Prelude.{◌≡◌, ◌*◌};
ghost use Rattle.lcr_core.specs.Outcome.{number_of};
ghost use Rattle.lcr_core.specs.Version.{new_of, version_refusal, side_of, of_side};

use super::Refusal;

#[derive(Clone, Copy)]
pub struct Version(pub u8);

impl Version {
    pub const MIN: Version = Version(1);

    pub const MAX: Version = Version(64);
    // The largest version of a symbol with finders.
    pub const MAX_CLASSIC: Version = Version(32);

    // Version v, refused outside 1 to 64.
    pub fn new(v: u8) -> Result<Version, Refusal>
        ensures version { result ≡ new_of v }
        ensures number { number_of result ≡ version_refusal v }
    {
        if v < Version::MIN.0 {
            return Err(Refusal::BadVersion);
        }
        if Version::MAX.0 < v {
            return Err(Refusal::BadVersion);
        }
        Ok(Version(v))
    }

    pub fn get(self) -> u8
        ensures { result ≡ self.0 }
    {
        self.0
    }

    // Modules on a side.
    pub fn side(self) -> u16
        ensures { result ≡ side_of self.0 }
    {
        17 + 4 * (self.0 as u16)
    }

    // Modules in all.
    pub fn modules(self) -> usize
        ensures { result ≡ side_of self.0 * side_of self.0 }
    {
        let s = self.side() as usize;
        s * s
    }

    // The version with so many modules on a side, or none.
    pub fn from_side(side: u16) -> Option<Version>
        ensures { result ≡ of_side side }
    {
        if side < 21 {
            return None;
        }
        if 273 < side {
            return None;
        }
        let d = side - 17;
        if d % 4 == 0 {
            Some(Version((d / 4) as u8))
        } else {
            None
        }
    }
}
