//! Where things stand in a picture, in pixels from its upper left corner: a column for each node, a row for each event
//! that is drawn.
ghost use Rattle.std.specs.Prelude.{◌≡◌};
ghost use Rattle.run_chart.specs.Places.{height_of, width_of, x_of, y_of};

/// Where this column's line stands.
pub fn x_of(column: usize) -> usize
    ensures { result ≡ x_of column }
{
    column.saturating_mul(96).saturating_add(70)
}

/// Where this row stands.
pub fn y_of(row: usize) -> usize
    ensures { result ≡ y_of row }
{
    row.saturating_mul(14).saturating_add(110)
}

/// The width of a picture with so many columns.
pub fn width_of(columns: usize) -> usize
    ensures { result ≡ width_of columns }
{
    x_of(columns).saturating_add(240)
}

/// The height of a picture with so many rows.
pub fn height_of(rows: usize) -> usize
    ensures { result ≡ height_of rows }
{
    y_of(rows).saturating_add(20)
}
