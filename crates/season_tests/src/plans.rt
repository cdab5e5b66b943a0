// Plans as bytes: which numbers of teams have one, and the games of a round.
use season::game::{Game, game_in};
use season::plan::{plan_teams, round_in};
use season::refusal::Refusal;
use std::test::Fail;

// The plan for 4 teams: 3-0 1-2, 1-3 2-0, 3-2 0-1.
pub const FOUR: [u8; 12] = [3, 0, 1, 2, 1, 3, 2, 0, 3, 2, 0, 1];

#[test]
fn plans_are_for_even_numbers_from_2_to_64(rt: HostRuntime) {
    for n in 0..70usize {
        let served = (2..=64).contains(&n) && n % 2 == 0;
        assert_eq!(rt;
            plan_teams(n),
            served.then_some(n).ok_or(Refusal::PlanTeams)
        );
    }
    assert_eq!(rt; plan_teams(usize::MAX - 1), Err(Refusal::PlanTeams));
}

#[test]
fn a_round_starts_in_the_middle(rt: HostRuntime) {
    assert_eq!(rt; round_in(&FOUR, 4, 0), Some([3, 0, 1, 2].as_slice()));
    assert_eq!(rt; round_in(&FOUR, 4, 1), Some([1, 3, 2, 0].as_slice()));
    assert_eq!(rt; round_in(&FOUR, 4, 2), Some([3, 2, 0, 1].as_slice()));
    assert_eq!(rt; round_in(&FOUR, 4, 3), None);
    assert_eq!(rt; round_in(&FOUR, 5, 2), None);
    assert_eq!(rt; round_in(&FOUR, usize::MAX, usize::MAX), None);
}

#[test]
fn a_round_has_its_games_in_order(rt: HostRuntime) -> Result<(), Fail> {
    let round = round_in(&FOUR, 4, 1).ok_or("round 1 is there")?;
    assert_eq!(rt; game_in(round, 0), Some(Game { host: 1, guest: 3 }));
    assert_eq!(rt; game_in(round, 1), Some(Game { host: 2, guest: 0 }));
    assert_eq!(rt; game_in(round, 2), None);
    assert_eq!(rt; game_in(&[5, 6, 7], 1), None);
    assert_eq!(rt; game_in(round, usize::MAX), None);
    Ok(())
}
