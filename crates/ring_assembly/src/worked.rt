ghost use Rattle.ring_assembly.specs.Worked.{WorkedRings, WorkedPolygons};

/// Worked ways, of which the rings are known.
pub fn worked_rings()
    ensures { WorkedRings }
{}

/// Worked rings, of which the polygons are known.
pub fn worked_polygons()
    ensures { WorkedPolygons }
{}
