// The seven classes of turns.
ghost use Rattle.std.specs.Prelude.{◌≡◌};
ghost use Rattle.turns.specs.Turns.{class_code};

/// How a turn is explained. The code of a class is its place in this list, from 0.
#[derive(Clone, Copy, PartialEq, Eq, Debug)]
pub enum Class {
    Straight = 0,
    BearRight = 1,
    Right = 2,
    SharpRight = 3,
    BearLeft = 4,
    Left = 5,
    SharpLeft = 6,
}

/// The number of the class: `Class::Left` is 5.
impl From<Class> for u8 {
    ghost from_gives = { λ class code. code ≡ class_code class };

    fn from(class: Class) -> u8 {
        class as u8
    }
}
