// The planner: worked plans, every number of teams, what is refused, and wrong ways of doing it.
use crate::plans::FOUR;
use planner::breaks::count_breaks;
use planner::circle::write_plan;
use season::plan::round_in;
use season::refusal::{Lent, Refusal};
use std::process::Abort;

// Rounds of a plan as bytes, looked at game by game, with nothing of the planner's.
#[derive(Clone, Copy)]
struct Rounds<'a> {
    plan: &'a [u8],
    teams: u8,
    count: usize,
}

impl<'a> Rounds<'a> {
    // The first half, in which each of two or more teams plays each of the others once.
    fn first_half(plan: &'a [u8], teams: u8) -> Self {
        let count = usize::from(teams).saturating_sub(1);
        Rounds { plan, teams, count }
    }

    // The games of a round, host and guest, and none where the plan ends before.
    fn games(self, r: usize) -> &'a [[u8; 2]] {
        let round = round_in(self.plan, usize::from(self.teams), r).unwrap_or(&[]);
        round.as_chunks().0
    }

    // Whether a team is at home in a round, or `None` if it has not just one game there.
    fn home(self, r: usize, team: u8) -> Option<bool> {
        let mut own = self
            .games(r)
            .iter()
            .filter(|&&[host, guest]| host == team || guest == team);
        match (own.next(), own.next()) {
            (Some([host, guest]), None) if host != guest => Some(*host == team),
            _ => None,
        }
    }

    // Whether a team has just one game in each round.
    fn plays_each_round(self, team: u8) -> bool {
        (0..self.count).all(|r| self.home(r, team).is_some())
    }

    // Whether two teams have a game with each other in a round.
    fn meet_in(self, r: usize, a: u8, b: u8) -> bool {
        self.games(r).iter().any(|&[host, guest]| host == a && guest == b
            || host == b && guest == a)
    }

    // Whether two teams meet in one of the rounds, wherever that is.
    fn meet(self, a: u8, b: u8) -> bool {
        (0..self.count).any(|r| self.meet_in(r, a, b))
    }

    // Whether two teams are at home and away in the same rounds.
    fn same_row(self, a: u8, b: u8) -> bool {
        (0..self.count).all(|r| self.home(r, a) == self.home(r, b))
    }

    // The breaks of a team: rounds at home after one at home, or away after one away.
    fn breaks_of(self, team: u8) -> usize {
        (0..self.count)
            .zip(1..self.count)
            .filter(|&(before, now)| self.home(before, team) == self.home(now, team))
            .count()
    }

    // The breaks of all teams. By `fold`, since a `sum` would have a bound proved.
    fn breaks(self) -> usize {
        (0..self.teams).fold(0, |sum: usize, team| {
            sum.saturating_add(self.breaks_of(team))
        })
    }
}

// The same games with home and away exchanged.
fn exchanged(mut plan: [u8; 12]) -> [u8; 12] {
    for game in plan.chunks_exact_mut(2) {
        game.reverse();
    }
    plan
}

// Each team has one game in each round, each two meet, and no two have the same row.
fn check_proper(rt: &impl Abort, rounds: Rounds) {
    for a in 0..rounds.teams {
        assert!(rt; rounds.plays_each_round(a));
        for b in 0..a {
            assert!(rt; rounds.meet(a, b));
            assert!(rt; !rounds.same_row(a, b));
        }
    }
}

#[test]
fn the_worked_plans_are_written(rt: HostRuntime) {
    let mut two = [9u8; 2];
    assert_eq!(rt; write_plan(2, &mut two), Ok(0));
    assert_eq!(rt; two, [1, 0]);
    let mut four = [9u8; 12];
    assert_eq!(rt; write_plan(4, &mut four), Ok(2));
    assert_eq!(rt; four, FOUR);
    let mut six = [9u8; 30];
    assert_eq!(rt; write_plan(6, &mut six), Ok(4));
    let rounds = [
        [5u8, 0, 1, 4, 3, 2],
        [1, 5, 2, 0, 4, 3],
        [5, 2, 3, 1, 0, 4],
        [3, 5, 4, 2, 1, 0],
        [5, 4, 0, 3, 2, 1],
    ];
    assert_eq!(rt; six.as_slice(), rounds.as_flattened());
}

#[test]
fn twenty_teams_have_18_breaks(rt: HostRuntime) {
    let mut plan = [0u8; 380];
    assert_eq!(rt; write_plan(20, &mut plan), Ok(18));
    assert_eq!(rt; count_breaks(20, &plan), Ok(18));
}

#[test]
fn every_plan_is_proper_and_has_n_minus_2_breaks(rt: HostRuntime) {
    for half in 0..32u8 {
        let teams = 2 * half + 2;
        let n = usize::from(teams);
        let breaks = usize::from(2 * half);
        let mut plan = [0u8; 4032];
        assert_eq!(rt; write_plan(n, &mut plan), Ok(breaks));
        let rounds = Rounds::first_half(&plan, teams);
        check_proper(&rt, rounds);
        assert_eq!(rt; rounds.breaks(), breaks);
        assert_eq!(rt; count_breaks(n, &plan), Ok(breaks));
    }
}

#[test]
fn what_follows_the_plan_is_left_alone(rt: HostRuntime) {
    let mut plan = [9u8; 16];
    assert_eq!(rt; write_plan(4, &mut plan), Ok(2));
    assert_eq!(rt; plan, [3, 0, 1, 2, 1, 3, 2, 0, 3, 2, 0, 1, 9, 9, 9, 9]);
}

#[test]
fn a_number_of_teams_without_a_plan_is_refused(rt: HostRuntime) {
    for n in [0usize, 1, 3, 63, 65, 66, usize::MAX - 1, usize::MAX] {
        let mut plan = [9u8; 4];
        assert_eq!(rt; write_plan(n, &mut plan), Err(Refusal::PlanTeams));
        assert_eq!(rt; plan, [9; 4]);
        assert_eq!(rt; count_breaks(n, &plan), Err(Refusal::PlanTeams));
    }
}

#[test]
fn memory_that_is_a_byte_too_short_is_refused(rt: HostRuntime) {
    let short = Refusal::MemoryShort(Lent::Row);
    let mut plan = [9u8; 4031];
    assert_eq!(rt; write_plan(64, &mut plan), Err(short));
    assert_eq!(rt; plan, [9; 4031]);
    assert_eq!(rt; write_plan(4, &mut plan[..11]), Err(short));
    assert_eq!(rt; write_plan(2, &mut plan[..1]), Err(short));
    assert_eq!(rt; plan, [9; 4031]);
    assert_eq!(rt; count_breaks(4, &plan[..11]), Err(short));
}

// Round for round: 0-1 2-3, 0-2 1-3, 0-3 2-1. Team 0 is at home throughout, 3 away; 1 is away, at home, away, and 2 at home,
// away, at home.
#[test]
fn breaks_of_a_plan_from_elsewhere_are_counted(rt: HostRuntime) {
    let plan = [0u8, 1, 2, 3, 0, 2, 1, 3, 0, 3, 2, 1];
    check_proper(&rt, Rounds::first_half(&plan, 4));
    assert_eq!(rt; count_breaks(4, &plan), Ok(4));
}

// Team 0 stands at place 0 of each round, and the others, which are not there, at place 4: all have a break twice.
#[test]
fn breaks_of_bytes_that_are_no_plan_are_counted(rt: HostRuntime) {
    assert_eq!(rt; count_breaks(4, &[0; 12]), Ok(8));
}

#[test]
fn breaks_are_not_counted_over_the_return_half_too(rt: HostRuntime) {
    let halves = [FOUR, exchanged(FOUR)];
    let plan = halves.as_flattened();
    let rounds = Rounds {
        plan,
        teams: 4,
        count: 6,
    };
    assert_eq!(rt; rounds.breaks(), 6);
    assert_eq!(rt; count_breaks(4, plan), Ok(2));
}

// Teams 0 and 1 are at home throughout, so they never meet, and there are more breaks than a proper plan needs.
#[test]
fn two_teams_with_the_same_row_never_meet(rt: HostRuntime) {
    let plan = [0u8, 2, 1, 3, 0, 3, 1, 2, 0, 2, 1, 3];
    let rounds = Rounds::first_half(&plan, 4);
    assert!(rt; rounds.same_row(0, 1));
    assert!(rt; !rounds.meet(0, 1));
    assert_eq!(rt; count_breaks(4, &plan), Ok(8));
}
