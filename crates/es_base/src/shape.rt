// Shapes of programs.

ghost use Rattle.std.specs.Prelude.{◌≡◌};
ghost use Rattle.es_base.specs.Shape.{shape_number};

/// A shape that puts a program outside the theorem on the order of its events.
#[derive(Debug, Clone, Copy, PartialEq, Eq)]
pub enum Shape {
    S1,
    S2,
    S3,
    S4,
    S5,
    S6,
    S7,
    S8,
}

impl Shape {
    /// The number of a shape, 1 for `S1`, as the program prints it.
    pub fn number(&self) -> u8
        ensures { result ≡ shape_number self.now }
    {
        match self {
            Shape::S1 => 1,
            Shape::S2 => 2,
            Shape::S3 => 3,
            Shape::S4 => 4,
            Shape::S5 => 5,
            Shape::S6 => 6,
            Shape::S7 => 7,
            Shape::S8 => 8,
        }
    }
}
