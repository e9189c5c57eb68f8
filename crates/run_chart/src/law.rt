//! What is so of each picture. It has no code: the functions below have empty bodies, and their contracts are laws.
ghost use Rattle.run_chart.specs.Boards.{BoardRowsNumbered};
ghost use Rattle.run_chart.specs.Marks.{ArrowsAreDrawnOnce, MarksStandAtRows};
ghost use Rattle.run_chart.specs.Rows.{RowsNumbered};

/// Of the marks of a picture the arrows are just one for each row at which a packet comes, in their order.
pub fn each_packet_that_comes_is_drawn_once()
    ensures { ArrowsAreDrawnOnce }
{}

/// Each event that is drawn has a row of its own, and these are numbered from 0 on.
pub fn rows_are_numbered()
    ensures { RowsNumbered }
{}

/// So are the rows of a run with boards.
pub fn board_rows_are_numbered()
    ensures { BoardRowsNumbered }
{}

/// Each mark stands at a row of the picture.
pub fn marks_stand_at_rows()
    ensures { MarksStandAtRows }
{}
