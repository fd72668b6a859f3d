// The class of a turn by five plain numbers, as the drawing editor asks for it; the static library `turns_c` exports it to C.
ghost use Rattle.std.specs.Prelude.{◌≡◌};
ghost use Rattle.turns.specs.Turns.{code_answer};

use crate::sectors::Sectors;
use crate::turning::turn;

/// The code of the class of a turn (0 straight, 1 bear right, 2 right, 3 sharp right, 4 bear left, 5 left, 6 sharp left), or 255 where a bearing is above
/// 359 or the limits are unsound.
///
/// `turn_class(90, 0, 20, 60, 120)` is 5.
pub fn turn_class(arriving: u32, leaving: u32, s: u32, b: u32, h: u32) -> u8
    ensures value { result ≡ code_answer arriving leaving s b h }
{
    // 255 stands for every refusal, since C gets one number and no `Result`.
    let Ok(limits) = Sectors::new(s, b, h) else {
        return 255;
    };
    match turn(&limits, arriving, leaving) {
        Ok((_, class)) => u8::from(class),
        Err(_) => 255,
    }
}
