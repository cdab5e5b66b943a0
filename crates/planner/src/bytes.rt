// A plan's bytes: whether they can hold the plan, and the rounds as parts of them.
ghost use Rattle.std.specs.Prelude.{◌≡◌, ◌-◌, ◌<◌, length, IfOk};
ghost use Rattle.planner.specs.Circle.{Fitting, unless_unfit};
ghost use Rattle.season.specs.Bytes.{round_at};
ghost use Rattle.season.specs.Refused.{told, given};

use season::plan::plan_teams;
use season::refusal::{Lent, Refusal};

// Bytes that hold a plan for so many teams, whatever they are, and what follows it.
#[derive(Clone, Copy)]
pub(crate) struct PlanBytes<'a> {
    pub(crate) teams: usize,
    pub(crate) bytes: &'a [u8],
    ghost fitting: { Fitting teams (length bytes.now) },
}

impl<'a> PlanBytes<'a> {
    // Round `r`, as a part of the plan's bytes.
    pub(crate) fn round(&self, r: usize) -> &'a [u8]
        requires { r < self.now.teams - 1 }
        ensures { result.now ≡ round_at self.now.bytes.now self.now.teams r }
    {
        &self.bytes[r * self.teams..(r + 1) * self.teams]
    }
}

// The number of teams, if a plan is made for so many and `bytes` bytes hold it.
pub(crate) fn check_plan(n: usize, bytes: usize) -> Result<usize, Refusal>
    ensures answer { told result ≡ unless_unfit n bytes (given n) }
    ensures fitting { IfOk result (λ teams. (teams ≡ n) × Fitting n bytes) }
{
    let teams = plan_teams(n)?;
    if bytes < (teams - 1) * teams {
        return Err(Refusal::MemoryShort(Lent::Row));
    }
    Ok(teams)
}
