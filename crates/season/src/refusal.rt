// Refusals: what is turned away, by the number of the rule and the place where it applies.
ghost use Rattle.std.specs.Prelude.{◌≡◌, ◌++◌, Some, codes, decimal};
ghost use Rattle.season.specs.Refused.{number_of, place_of};

use std::fmt;

// Lent memory, by what it is for: rounds of a plan or a row of games, points, or the flow.
#[derive(Clone, Copy, PartialEq, Eq, Debug)]
pub enum Lent {
    Row,
    Points,
    Flow,
}

// Why something is turned away. A case holds its place, where that is not always 0.
#[derive(Clone, Copy, PartialEq, Eq, Debug)]
pub enum Refusal {
    // 1: a plan for an odd number of teams, for none, or for more than 64
    PlanTeams,
    // 2: a table for fewer than 2 or more than 64 teams
    TableTeams,
    // 3: a table's file that ends before its points are whole, at its length
    FileEnds(usize),
    // 4: points above 1,000, in a table's file or after results, at the team
    PointsAbove(usize),
    // 5: games that are not two bytes each, or more than 1,024, at the file's length
    GamesLength(usize),
    // 6: a team that is not there, at the game
    NoSuchTeam(usize),
    // 7: a game of a team with itself, at the game
    AgainstItself(usize),
    // 8: a plan to audit for a number of teams as under 1, at 0, or of another length than its teams ask for, at that length
    AuditPlan(usize),
    // 9: an ending of another length than the row of games, at that length, or with a byte above 2, at the game; a team that is
    // asked about and is not there, at 0
    AuditEnding(usize),
    // 10: lent memory that is too short, at 0 for rounds or a row of games, 1 for points, 2 for the flow
    MemoryShort(Lent),
}

impl Refusal {
    // The number of the rule that applies, 1 to 10, by which a league office finds it in the list of rules.
    pub fn number(self) -> u8
        ensures { result ≡ number_of self }
    {
        match self {
            Refusal::PlanTeams => 1,
            Refusal::TableTeams => 2,
            Refusal::FileEnds(_) => 3,
            Refusal::PointsAbove(_) => 4,
            Refusal::GamesLength(_) => 5,
            Refusal::NoSuchTeam(_) => 6,
            Refusal::AgainstItself(_) => 7,
            Refusal::AuditPlan(_) => 8,
            Refusal::AuditEnding(_) => 9,
            Refusal::MemoryShort(_) => 10,
        }
    }

    // The place where it applies.
    pub fn place(self) -> usize
        ensures { result ≡ place_of self }
    {
        match self {
            Refusal::PlanTeams | Refusal::TableTeams => 0,
            Refusal::MemoryShort(Lent::Row) => 0,
            Refusal::MemoryShort(Lent::Points) => 1,
            Refusal::MemoryShort(Lent::Flow) => 2,
            Refusal::FileEnds(at)
            | Refusal::PointsAbove(at)
            | Refusal::GamesLength(at)
            | Refusal::NoSuchTeam(at)
            | Refusal::AgainstItself(at)
            | Refusal::AuditPlan(at)
            | Refusal::AuditEnding(at) => at,
        }
    }
}

impl fmt::Display for Refusal {
    ghost output = { λ x. Some (codes "refused " ++ (decimal (number_of x) ++ (codes " at " ++ decimal (place_of x)))) };

    fn fmt<W: fmt::Write>(&self, f: &mut fmt::Formatter<W>) -> fmt::Result {
        let number = self.number();
        let place = self.place();
        write!(f, "refused {number} at {place}")
    }
}
