// Theorems about results and endings. Each function's contract is the theorem.
ghost use Rattle.season.specs.Promise.{PointsAdd, Sure};
ghost use Rattle.standings.specs.Theorems.{FullRow, InParts, PointsKept};

// All points after an ending are those of the table and two for each game left.
pub fn points_add()
    ensures { PointsAdd }
{}

// A team is sure to be first just if no other can come to more than it has.
pub fn sure_if_none_can_pass()
    ensures { Sure }
{}

// A full row of results leaves no game, and the points of that ending.
pub fn full_row_is_the_ending()
    ensures { FullRow }
{}

// Results played one part after the other make the table that both together make.
pub fn results_in_parts()
    ensures { InParts }
{}

// The points of all teams and two for each game left, together, are the same after results as before.
pub fn results_keep_points()
    ensures { PointsKept }
{}
