ghost use Rattle.std.specs.Prelude.{◌≡◌, ◌↔◌, IsTrue};

use crate::Attrs;

/// Attributes are equal by `==` exactly where they are one.
pub fn equal_attributes_are_one(a: &Attrs, b: &Attrs) -> bool
    ensures { IsTrue result ↔ (a.now ≡ b.now) }
{
    a == b
}
