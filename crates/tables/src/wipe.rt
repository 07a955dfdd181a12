// "Refused: all lent tables are zero."
ghost use Rattle.std.specs.Prelude.{◌≡◌};
ghost use Rattle.paper.specs.Tables.{Tables};
ghost use Rattle.paper.specs.Lent.{lengths_of, zero_tables};
ghost use Rattle.tables.specs.Values.{tables_by};

pub fn wipe_all(vertices: &mut [i64], halves: &mut [u16], sources: &mut [u32], faces: &mut [u16])
    ensures { tables_by vertices.new halves.new sources.new faces.new ≡ zero_tables (lengths_of (tables_by vertices.old halves.old sources.old faces.old)) }
{
    vertices.fill(0);
    halves.fill(0);
    sources.fill(0);
    faces.fill(0);
}
