// Who is sure to be first: a team than which no other can come to more.
ghost use Rattle.std.specs.Prelude.{◌≡◌, ◌<◌, length, IfOk, Decides};
ghost use Rattle.season.specs.Encoding.{table_in};
ghost use Rattle.season.specs.Refused.{told};
ghost use Rattle.season.specs.Table.{left_of, most};
ghost use Rattle.standings.specs.Held.{held};
ghost use Rattle.standings.specs.Sure.{AlwaysFirst, can_pass, outcome_sure, sure};

use crate::asked::check_team;
use crate::gains::{left_of, most_of};
use crate::own::{LARGEST, OwnTable};
use crate::table::Table;
use season::refusal::Refusal;

impl Table<'_> {
    // The most that a team can come to.
    fn most(self, team: usize) -> u32
        requires { team < length self.points.now }
        ensures { result ≡ most ((held self.entry).points team) (left_of (held self.entry).left team) }
    {
        // The cast loses nothing: a table has at most 1,024 games left.
        most_of(self.points[team], left_of(self.games, team) as u16)
    }

    // Whether another team can come to more than a team has.
    fn can_pass(self, team: usize, other: usize) -> bool
        requires { (team < length self.points.now) × (other < length self.points.now) }
        ensures { result ≡ can_pass (held self.entry) team other }
    {
        other != team && self.most(other) > u32::from(self.points[team])
    }

    // Whether a team is sure to be first, alone or with others: no other can come to more than it has.
    pub fn is_sure(self, team: usize) -> bool
        requires { team < length self.points.now }
        ensures answer { result ≡ sure (held self.entry) team }
        ensures always { Decides result (AlwaysFirst (held self.entry) team) }
    {
        !(0..self.points.len()).any(|other| self.can_pass(team, other))
    }
}

// Whether a team of a table's file is sure to be first, alone or with others. Refuses as the reader does, and then a team that is
// not there.
pub fn sure_first(file: &[u8], team: usize) -> Result<bool, Refusal>
    ensures answer { told result ≡ outcome_sure file.now team }
    ensures always { IfOk result (λ b. Decides b (AlwaysFirst (table_in file.now) team)) }
{
    let own = OwnTable::read(file, LARGEST)?;
    check_team(team, own.sizes)?;
    Ok(own.lend().is_sure(team))
}
