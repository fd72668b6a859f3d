// Making sector limits, and reading them.
ghost use Rattle.std.specs.Prelude.{◌≡◌};
ghost use Rattle.turns.specs.Sectors.{limits_answer, limits_made, limits_of};

use crate::fault::PlanFault;
use crate::sectors::Sectors;

impl Sectors {
    /// The limits s, b and h, or refusal 1 with the place of the first limit that is above 180 or below the one before.
    ///
    /// `Sectors::new(20, 60, 120)` is sound; `Sectors::new(20, 10, 120)` is `Err(PlanFault::BadLimits(2))`.
    pub fn new(s: u32, b: u32, h: u32) -> Result<Sectors, PlanFault>
        ensures value { limits_made result ≡ limits_answer s b h }
    {
        if s > 180 {
            return Err(PlanFault::BadLimits(1));
        }
        if b < s || b > 180 {
            return Err(PlanFault::BadLimits(2));
        }
        if h < b || h > 180 {
            return Err(PlanFault::BadLimits(3));
        }
        Ok(Sectors {
            s: s as u16,
            b: b as u16,
            h: h as u16,
        })
    }

    /// The largest angle that is straight.
    pub fn s(&self) -> u32
        ensures value { result ≡ (limits_of self.now).s }
    {
        u32::from(self.s)
    }

    /// The largest angle that bears right or left.
    pub fn b(&self) -> u32
        ensures value { result ≡ (limits_of self.now).b }
    {
        u32::from(self.b)
    }

    /// The largest angle that is a right or a left and not sharp.
    pub fn h(&self) -> u32
        ensures value { result ≡ (limits_of self.now).h }
    {
        u32::from(self.h)
    }
}
