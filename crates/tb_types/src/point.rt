ghost use Rattle.std.specs.Prelude.{◌≡◌, ◌^◌, ◌≤◌, ℤ, unsigned_abs};

use crate::location::{Grid, World};

/// A point of a plane, by its two whole coordinates.
pub trait Point: Copy {
    ghost x_of: { Self → ℤ };

    ghost y_of: { Self → ℤ };

    /// The coordinate that grows to the east.
    fn x(self) -> i64
        ensures exact { result ≡ x_of self }
        ensures small { unsigned_abs result ≤ 2 ^ 32 };

    /// The coordinate that grows to the south.
    fn y(self) -> i64
        ensures exact { result ≡ y_of self }
        ensures small { unsigned_abs result ≤ 2 ^ 32 };
}

impl Point for Grid {
    ghost x_of = { λ p. p.x };

    ghost y_of = { λ p. p.y };

    fn x(self) -> i64 {
        i64::from(self.x)
    }

    fn y(self) -> i64 {
        i64::from(self.y)
    }
}

impl Point for World {
    ghost use Rattle.std.specs.Prelude.{pos};

    ghost x_of = { λ p. pos p.x };

    ghost y_of = { λ p. pos p.y };

    fn x(self) -> i64 {
        i64::from(self.x)
    }

    fn y(self) -> i64 {
        i64::from(self.y)
    }
}
