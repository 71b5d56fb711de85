//! What is written is read again.

ghost use Rattle.std.specs.Prelude.{ℕ, ◌<◌, ◌^◌, List};
ghost use Rattle.std.specs.List.{flat_map};
ghost use Rattle.grid.specs.declared.position.Position.{Position as PositionValue};
ghost use Rattle.wkb.specs.Again.{ArePolygons, IsPolygon, IsReadAs, rings_of};
ghost use Rattle.wkb.specs.Spelling.{polygon, written};
ghost use Rattle.wkb.specs.declared.writing.Form.TheVariants.{MultiPolygon};

/// A law, of all polygons that have room in the format: the layout of what was written has just their rings, at which just their
/// positions stand. It takes no time and answers nothing.
pub fn what_is_written_is_read()
    ensures multipolygon { (most_nested srid : ℕ) (polygons : List (List (List PositionValue))) → srid < 2 ^ 32 → ArePolygons polygons
        → IsReadAs most_nested (written MultiPolygon srid polygons) (flat_map rings_of polygons) }
    ensures each_polygon { (most_nested srid : ℕ) (rings : List (List PositionValue)) → srid < 2 ^ 32 → IsPolygon rings
        → IsReadAs most_nested (polygon srid rings) (rings_of rings) }
{}
