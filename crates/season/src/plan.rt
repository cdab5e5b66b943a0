// Plans as bytes: for each round its games, host and guest, one byte each.
ghost use Rattle.std.specs.Prelude.{◌≡◌, ◌+◌, ◌*◌, length, is_some, IfSome, nat_le};
ghost use Rattle.season.specs.Bytes.{round_at};
ghost use Rattle.season.specs.Plan.{unplanned};
ghost use Rattle.season.specs.Refused.{told, given, unless};

use crate::refusal::Refusal;

// The most teams that a plan or a table may have.
pub const MOST_TEAMS: usize = 64;

// The number of teams, if a plan can be made for so many: an even number from 2 to 64.
pub fn plan_teams(n: usize) -> Result<usize, Refusal>
    ensures { told result ≡ unless (unplanned n) 1 0 (given n) }
{
    if n % 2 == 1 || !(2..=MOST_TEAMS).contains(&n) {
        return Err(Refusal::PlanTeams);
    }
    Ok(n)
}

// Round `r` of a plan for `n` teams, as a part of the plan's bytes, or `None` where the plan ends before it is whole.
pub fn round_in(plan: &[u8], n: usize, r: usize) -> Option<&[u8]>
    ensures there { is_some result ≡ nat_le (r * n + n) (length plan.now) }
    ensures bytes { IfSome result (λ x. x.now ≡ round_at plan.now n r) }
{
    let start = r.checked_mul(n)?;
    plan.get(start..start.checked_add(n)?)
}
