// The turn from one bearing to another.
ghost use Rattle.std.specs.Prelude.{◌≡◌, ◌≤◌};
ghost use Rattle.turns.specs.Sectors.{limits_of};
ghost use Rattle.turns.specs.Turns.{angle, class_of, turn_answer};

use crate::class::Class;
use crate::fault::PlanFault;
use crate::sectors::Sectors;

/// The angle of the turn from an edge arriving on one bearing to an edge leaving on another, −179 to 180 with right above zero, together with its class;
/// or refusal 5 with the leaving bearing if it is above 359, else with the arriving one.
///
/// Under limits 20, 60 and 120, arriving on 90 and leaving on 0 is `Ok((-90, Class::Left))`.
pub fn turn(limits: &Sectors, arriving: u32, leaving: u32) -> Result<(i16, Class), PlanFault>
    ensures value { result ≡ turn_answer (limits_of limits.now) arriving leaving }
{
    if leaving > 359 {
        return Err(PlanFault::BadBearing(leaving));
    }
    if arriving > 359 {
        return Err(PlanFault::BadBearing(arriving));
    }
    let degrees = signed_angle(arriving, leaving);
    Ok((degrees, classify(limits, degrees)))
}

// The leaving bearing minus the arriving one, moved by 360 where needed.
fn signed_angle(arriving: u32, leaving: u32) -> i16
    requires { (arriving ≤ 359) × (leaving ≤ 359) }
    ensures value { result ≡ angle arriving leaving }
{
    let difference = leaving as i16 - arriving as i16;
    if difference > 180 {
        difference - 360
    } else if difference < -179 {
        difference + 360
    } else {
        difference
    }
}

// The class of an angle: how far it turns, by the three limits, and to which side.
fn classify(limits: &Sectors, degrees: i16) -> Class
    ensures value { result ≡ class_of (limits_of limits.now) degrees }
{
    let s = limits.s() as i16;
    let b = limits.b() as i16;
    let h = limits.h() as i16;
    match degrees {
        a if a > h => Class::SharpRight,
        a if a > b => Class::Right,
        a if a > s => Class::BearRight,
        a if a >= -s => Class::Straight,
        a if a >= -b => Class::BearLeft,
        a if a >= -h => Class::Left,
        _ => Class::SharpLeft,
    }
}
