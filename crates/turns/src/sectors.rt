// Sector limits: the three angles that part the classes of turns.
ghost use Rattle.std.specs.Prelude.{◌≤◌};

/// The sector limits of a drawing, whole degrees with s ≤ b ≤ h ≤ 180.
///
/// A turn of at most s degrees to either side is straight, of at most b degrees it bears right or left, of at most h degrees it is a right or a left,
/// and anything above is sharp. No value of this type breaks the order of the limits.
#[derive(Clone, Copy)]
pub struct Sectors {
    s: u16,
    b: u16,
    h: u16,
    ghost straight: { s ≤ b },
    ghost bear: { b ≤ h },
    ghost half: { h ≤ 180 },
}

mod limits;
