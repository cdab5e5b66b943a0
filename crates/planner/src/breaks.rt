// The breaks of a plan: two home games running, or two away.
ghost use Rattle.std.specs.Prelude.{◌≡◌, ◌-◌, ◌<◌, ◌≤◌, length, if◌then◌else◌};
ghost use Rattle.planner.specs.Circle.{unless_unfit};
ghost use Rattle.season.specs.Bytes.{home_in, place_in, plan_of};
ghost use Rattle.season.specs.Plan.{break_at, breaks, breaks_of};
ghost use Rattle.season.specs.Refused.{told, given};

use crate::bytes::{PlanBytes, check_plan};
use season::refusal::Refusal;

// Where a team stands in a round: the first place that has its byte, or the round's length where none has, since the plan that bytes
// hold is defined for all bytes.
fn place_in(round: &[u8], team: usize) -> usize
    ensures { result ≡ place_in round.now team }
{
    round
        .iter()
        .position(|b| usize::from(*b) == team)
        .unwrap_or(round.len())
}

// Whether a team is at home in a round.
fn at_home(round: &[u8], team: usize) -> bool
    ensures { result ≡ home_in round.now team }
{
    place_in(round, team) % 2 == 0
}

impl PlanBytes<'_> {
    // Whether a team has a break in round `r + 1`: at home there and in round `r`, or away in both.
    fn has_break(&self, team: usize, r: usize) -> bool
        requires { r < self.now.teams - 2 }
        ensures { break_at (plan_of self.now.teams self.now.bytes.now) team r ≡ (if result then 1 else 0) }
    {
        at_home(self.round(r + 1), team) == at_home(self.round(r), team)
    }

    // The breaks of a team, over all rounds.
    fn breaks_of(&self, team: usize) -> usize
        ensures counted { result ≡ breaks_of self.now.teams (plan_of self.now.teams self.now.bytes.now) team }
        ensures few { result ≤ self.now.teams }
    {
        (0..self.teams - 2)
            .filter(|r| self.has_break(team, *r))
            .count()
    }

    // The breaks of all teams.
    pub(crate) fn breaks(&self) -> usize
        ensures { result ≡ breaks self.now.teams (plan_of self.now.teams self.now.bytes.now) }
    {
        (0..self.teams).map(|team| self.breaks_of(team)).sum()
    }
}

// The breaks of the plan for `n` teams in a row of bytes, whatever the bytes are; what follows the plan does not count.
pub fn count_breaks(n: usize, plan: &[u8]) -> Result<usize, Refusal>
    ensures { told result ≡ unless_unfit n (length plan.now) (given (breaks n (plan_of n plan.now))) }
{
    let teams = check_plan(n, plan.len())?;
    Ok(PlanBytes { teams, bytes: plan }.breaks())
}
