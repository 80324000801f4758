/// A fault of an object outside the program, which the object's count has counted.
#[derive(Clone, Copy, Debug, PartialEq, Eq)]
pub struct Failed;
