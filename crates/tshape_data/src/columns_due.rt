//! The numbers of a representation, column by column.
ghost use Rattle.std.specs.Prelude.{◌≡◌, ◌≤◌, ◌+◌, OnOk, length, []};
ghost use Rattle.tshape_data.specs.Columns.{edge_columns as columns_of_edge, point_columns as columns_of_point};
ghost use Rattle.tshape_data.specs.ColumnsLeft.{AllAreLeft, FitColumns, IsNumberDue, TakesNumber, numbers_of};

use crate::columns::Column::{self, Continuity, Entry, Location};
use crate::columns::Table::{Curve2s, Curves, Meshes, Polygons, PolygonsOn, Surfaces};
use crate::due::column_due;
use crate::forms::{EdgeForm, PointForm};
use crate::head_bounds::HeadBounds;
use brep_tokens::{ReadStop, Token};

/// What the numbers of a vertex's representation are.
pub fn point_columns(form: PointForm) -> &'static [Column]
    ensures columns { result.now ≡ columns_of_point form }
    ensures few { length result.now ≤ 5 }
{
    match form {
        PointForm::OnCurve => &[Entry(Curves), Location],
        PointForm::OnCurve2 => &[Entry(Curve2s), Entry(Surfaces), Location],
        PointForm::OnSurface => &[Entry(Surfaces), Location],
    }
}

/// What the numbers of an edge's representation are.
pub fn edge_columns(form: EdgeForm) -> &'static [Column]
    ensures columns { result.now ≡ columns_of_edge form }
    ensures few { length result.now ≤ 5 }
{
    match form {
        EdgeForm::Curve => &[Entry(Curves), Location],
        EdgeForm::Curve2 => &[Entry(Curve2s), Entry(Surfaces), Location],
        EdgeForm::Seam => &[
            Entry(Curve2s),
            Entry(Curve2s),
            Continuity,
            Entry(Surfaces),
            Location,
        ],
        EdgeForm::Joint => &[
            Continuity,
            Entry(Surfaces),
            Location,
            Entry(Surfaces),
            Location,
        ],
        EdgeForm::Polygon => &[Entry(Polygons), Location],
        EdgeForm::PolygonOn => &[Entry(PolygonsOn), Entry(Meshes), Location],
        EdgeForm::SeamPolygons => &[
            Entry(PolygonsOn),
            Entry(PolygonsOn),
            Entry(Meshes),
            Location,
        ],
    }
}

/// The numbers taken so far.
#[derive(Clone, Copy)]
pub struct ColumnsDue {
    pub numbers: [u32; 5],
    pub len: usize,
}

impl ColumnsDue {
    /// None was taken yet.
    pub fn new() -> ColumnsDue
        ensures left { AllAreLeft result }
        ensures len { result.len ≡ 0 }
        ensures numbers { numbers_of result ≡ [] }
    {
        ColumnsDue {
            numbers: [0; 5],
            len: 0,
        }
    }

    /// Takes the next one for these columns.
    pub fn take(
        &mut self,
        columns: &[Column],
        bounds: &HeadBounds,
        t: &Token,
    ) -> Result<(), ReadStop>
        requires { IsNumberDue columns.now self.old }
        ensures step { TakesNumber bounds.now columns.now self.old t.now self.new result }
        ensures len { OnOk result (self.new.len ≡ self.old.len + 1) }
        ensures fit { OnOk result (FitColumns columns.now (numbers_of self.new)) }
    {
        match column_due(bounds, columns[self.len], t) {
            Err(f) => Err(ReadStop::Fault(f)),
            Ok(n) => {
                self.numbers[self.len] = n;
                self.len += 1;
                Ok(())
            }
        }
    }
}
