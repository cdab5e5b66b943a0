// Theorems about plans. Each function's contract is the theorem, and its body is empty.
ghost use Rattle.planner.specs.Theorems.{BreakRounds, BytesAgree};
ghost use Rattle.planner.specs.Worked.{WorkedPlans};
ghost use Rattle.season.specs.Promise.{Planned, BreaksNeeded, BeginDifferently};

// For every even number of teams the plan by circles is a best plan, and it has n - 2 breaks.
pub fn circle_is_best()
    ensures { Planned }
{}

// Every proper plan for n teams has at least n - 2 breaks.
pub fn breaks_are_needed()
    ensures { BreaksNeeded }
{}

// Two teams without a break, in a proper plan, do not begin alike.
pub fn unbroken_begin_differently()
    ensures { BeginDifferently }
{}

// In the plan by circles team i has a break in round i or i + 1, whichever is odd, if the plan has that round, and no other.
pub fn break_rounds()
    ensures { BreakRounds }
{}

// The plan read back from the planner's bytes agrees with the plan by circles in every round and team.
pub fn bytes_agree()
    ensures { BytesAgree }
{}

// The plans for 2, 4 and 6 teams, worked out by hand, and their breaks.
pub fn worked_plans()
    ensures { WorkedPlans }
{}
