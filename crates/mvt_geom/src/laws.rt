ghost use Rattle.mvt_geom.specs.Worked.{WorkedGeometry};
ghost use Rattle.mvt_geom.specs.Text.{GeometryIsReadAgain, GeometryHasItsForm, NearShapesAreDrawable};

/// What is written of a shape after clean-up is read again as that shape.
pub fn geometry_is_read_again()
    ensures { GeometryIsReadAgain }
{}

/// What is written of a shape after clean-up has the form of its type.
pub fn geometry_has_its_form()
    ensures { GeometryHasItsForm }
{}

/// A shape after clean-up of points within -2^30 and 2^30 - 1, whose paths and rings have fewer than 2^29 points, can be written.
pub fn near_shapes_are_drawable()
    ensures { NearShapesAreDrawable }
{}

/// Worked shapes and integers that the definitions were checked on.
pub fn worked_geometry()
    ensures { WorkedGeometry }
{}
