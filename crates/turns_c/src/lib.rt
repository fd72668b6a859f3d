// The class of a turn for the drawing editor, which is written in C: the static library that it links.
#![tactic(auto)]

ghost use Rattle.std.specs.Prelude.{◌≡◌};
ghost use Rattle.turns.specs.Turns.{code_answer};

/// The code of the class of a turn (0 straight, 1 bear right, 2 right, 3 sharp right, 4 bear left, 5 left, 6 sharp left), or 255 where a bearing is above
/// 359 or the limits are unsound: what `turns::turn_class` answers.
///
/// `turn_class(90, 0, 20, 60, 120)` is 5.
#[unsafe(no_mangle)]
pub extern "C" fn turn_class(arriving: u32, leaving: u32, s: u32, b: u32, h: u32) -> u8
    ensures value { result ≡ code_answer arriving leaving s b h }
{
    turns::turn_class(arriving, leaving, s, b, h)
}
