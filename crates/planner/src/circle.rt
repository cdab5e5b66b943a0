// The plan by circles, written into lent memory round by round.
ghost use Rattle.std.specs.Prelude.{◌≡◌, ◌+◌, ◌-◌, ◌%◌, ◌<◌, ◌≤◌, pos, length, if◌then◌else◌, IfOk, OnOk};
ghost use Rattle.std.specs.Int.{int_rem_euclid};
ghost use Rattle.planner.specs.Circle.{Fitting, plan_after, round_byte, round_bytes, unless_unfit, with_plan};
ghost use Rattle.season.specs.Bytes.{plan_of};
ghost use Rattle.season.specs.Plan.{Agree, BestPlan, breaks, circle, rest};
ghost use Rattle.season.specs.Refused.{told, given};

use crate::bytes::{PlanBytes, check_plan};
use season::refusal::Refusal;
use season::rows::write_front;

// A round of the plan by circles for so many teams, by its number.
#[derive(Clone, Copy)]
struct CircleRound {
    teams: usize,
    number: usize,
    ghost even_teams: { teams % 2 ≡ 0 },
    ghost few_teams: { teams ≤ 64 },
    ghost there: { number < teams - 1 },
}

impl CircleRound {
    // The team at a place of the circle, on which all teams but the last stand; below 0 it is counted back from the end.
    fn team_at(&self, place: i32) -> u8
        ensures { pos result ≡ int_rem_euclid place (pos (self.now.teams - 1)) }
    {
        // No cast loses anything, here and below: there are at most 64 teams.
        place.rem_euclid((self.teams - 1) as i32) as u8
    }

    // The team `k` places ahead of the round's number on the circle, or behind it.
    fn team_beside(&self, k: usize, ahead: bool) -> u8
        requires { k < self.now.teams - 1 }
        ensures { result ≡ rest (self.now.teams - 1)
            (if ahead then self.now.number + k else self.now.number + (self.now.teams - 1) - k) }
    {
        let own = self.number as i32;
        let apart = k as i32;
        if ahead {
            self.team_at(own + apart)
        } else {
            self.team_at(own - apart)
        }
    }

    // Byte `p` of the round: the host of a game at an even place, the guest at an odd one. Bytes and not games are written, since of
    // the pairs that `as_chunks_mut` cuts the library does not say what they end as; so that no game is reckoned twice, each byte is
    // reckoned without the other of its game.
    #[tactic(auto, unfolding(crate::specs::Circle::round_byte))]
    fn byte(&self, p: usize) -> u8
        requires { p < self.now.teams }
        ensures { result ≡ round_byte self.now.teams self.now.number p }
    {
        let game = p / 2;
        let is_host = p % 2 == 0;
        if game == 0 {
            let last = self.teams - 1;
            let last_is_host = self.number % 2 == 0;
            return if is_host == last_is_host {
                last as u8
            } else {
                self.number as u8
            };
        }
        let ahead_is_host = game % 2 == 1;
        self.team_beside(game, is_host == ahead_is_host)
    }

    // Writes the games of the round into its part of the plan's bytes.
    fn write(&self, round: &mut [u8])
        requires { length round.old ≡ self.now.teams }
        ensures { round.new ≡ round_bytes self.now.teams self.now.number }
    {
        write_front(round, self.teams, |p| self.byte(p));
    }
}

// Writes all rounds, and leaves what follows them as it was.
fn write_rounds(teams: usize, plan: &mut [u8])
    requires { Fitting teams (length plan.old) }
    ensures { plan.new ≡ with_plan teams plan.old }
{
    // By a rule of the project each round is handed on as the part of the bytes that it is. It is cut by its place, since of the parts
    // that `chunks_exact_mut` cuts the library does not say what they end as.
    for number in 0..teams - 1 {
        let round = CircleRound { teams, number };
        round.write(&mut plan[number * teams..(number + 1) * teams]);
    }
}

// Writes the plan for `n` teams, n × (n - 1) bytes, and answers its breaks. No proper plan has fewer.
pub fn write_plan(n: usize, plan: &mut [u8]) -> Result<usize, Refusal>
    ensures answer { told result ≡ unless_unfit n (length plan.old) (given (n - 2)) }
    ensures bytes { plan.new ≡ plan_after (told result) n plan.old }
    ensures circle { OnOk result (Agree n (plan_of n plan.new) (circle n)) }
    ensures counted { IfOk result (λ b. b ≡ breaks n (plan_of n plan.new)) }
    ensures best { OnOk result (BestPlan n (plan_of n plan.new)) }
{
    let teams = check_plan(n, plan.len())?;
    write_rounds(teams, plan);
    Ok(PlanBytes { teams, bytes: plan }.breaks())
}
