// The standings: tables after results, points after an ending, and who is sure to be first.
use crate::files::{LARGEST, OLD, THREE, full_file, level_file};
use season::game::Game;
use season::refusal::{Lent, Refusal};
use season::table::Sizes;
use standings::endings::points_after;
use standings::gains::{left_of, most_of};
use standings::results::table_after;
use standings::sure::sure_first;
use std::process::Abort;
use std::test::Fail;

// The two games of the table of three.
const FIRST: Game = Game { host: 0, guest: 1 };

const SECOND: Game = Game { host: 2, guest: 0 };

// The table of a file of three teams after results, in memory that had other things before.
fn check_after(rt: &impl Abort, file: &[u8], results: &[u8], points: [u16; 3], left: &[Game]) {
    let mut now = [99u16; 4];
    let mut row = [OLD; 3];
    let games = left.len();
    assert_eq!(rt;
        table_after(file, results, &mut now, &mut row),
        Ok(Sizes { teams: 3, games })
    );
    let [a, b, c] = points;
    assert_eq!(rt; now, [a, b, c, 99]);
    for (game, then) in row.iter().zip(left.iter().chain(&[OLD; 3])) {
        assert_eq!(rt; game, then);
    }
}

// 6 6 4 points, with the games 0-1 and 2-0.
#[test]
fn a_result_shares_two_points(rt: HostRuntime) {
    check_after(&rt, &THREE, &[2], [8, 6, 4], &[SECOND]);
    check_after(&rt, &THREE, &[1], [7, 7, 4], &[SECOND]);
    check_after(&rt, &THREE, &[0], [6, 8, 4], &[SECOND]);
    check_after(&rt, &THREE, &[255, 2], [6, 6, 6], &[FIRST]);
    check_after(&rt, &THREE, &[255, 1], [7, 6, 5], &[FIRST]);
    check_after(&rt, &THREE, &[255, 0], [8, 6, 4], &[FIRST]);
}

#[test]
fn a_full_row_of_results_leaves_no_game(rt: HostRuntime) {
    check_after(&rt, &THREE, &[2, 2], [8, 6, 6], &[]);
    check_after(&rt, &THREE, &[2, 1], [9, 6, 5], &[]);
    check_after(&rt, &THREE, &[0, 0], [8, 8, 4], &[]);
}

#[test]
fn a_row_of_results_may_be_too_short_or_too_long(rt: HostRuntime) {
    check_after(&rt, &THREE, &[], [6, 6, 4], &[FIRST, SECOND]);
    check_after(&rt, &THREE, &[3, 254], [6, 6, 4], &[FIRST, SECOND]);
    check_after(&rt, &THREE, &[1, 1, 2, 0, 1], [8, 7, 5], &[]);
}

// 8 6 4 with 2-0 is the table of three after the first result.
#[test]
fn results_come_one_after_the_other(rt: HostRuntime) {
    check_after(&rt, &THREE, &[2, 1], [9, 6, 5], &[]);
    check_after(&rt, &[3, 8, 0, 6, 0, 4, 0, 2, 0], &[1], [9, 6, 5], &[]);
}

// What is answered with room for a table of these sizes, in memory that had other things before, of which nothing has changed.
fn check_refused(rt: &impl Abort, file: &[u8], results: &[u8], room: Sizes, refusal: Refusal) {
    let mut points = [99u16; 64];
    let mut row = [OLD; 1024];
    assert_eq!(rt;
        table_after(
            file,
            results,
            &mut points[..room.teams.min(64)],
            &mut row[..room.games.min(1024)],
        ),
        Err(refusal)
    );
    assert_eq!(rt; points, [99; 64]);
    assert_eq!(rt; row, [OLD; 1024]);
}

// 1,000 is 232 and 3 × 256.
#[test]
fn points_past_1000_are_refused(rt: HostRuntime) {
    let file = [3, 231, 3, 231, 3, 232, 3, 0, 1, 1, 2];
    check_after(
        &rt,
        &file,
        &[1],
        [1000, 1000, 1000],
        &[Game { host: 1, guest: 2 }],
    );
    let room = Sizes { teams: 3, games: 2 };
    check_refused(&rt, &file, &[2], room, Refusal::PointsAbove(0));
    check_refused(&rt, &file, &[0], room, Refusal::PointsAbove(1));
    check_refused(&rt, &file, &[255, 1], room, Refusal::PointsAbove(2));
    // and 2 passes too
    check_refused(&rt, &file, &[0, 0], room, Refusal::PointsAbove(1));
}

#[test]
fn the_reader_refuses_first(rt: HostRuntime) {
    let file = [2, 232, 3, 0, 0, 0, 1, 1, 1];
    let room = Sizes { teams: 2, games: 2 };
    // and points past 1,000
    check_refused(&rt, &file, &[2], room, Refusal::AgainstItself(1));
    // though no game would be left
    let row_short = Sizes { teams: 3, games: 1 };
    let refusal = Refusal::MemoryShort(Lent::Row);
    check_refused(&rt, &THREE, &[2, 2], row_short, refusal);
    let refusal = Refusal::MemoryShort(Lent::Points);
    check_refused(&rt, &THREE, &[], room, refusal);
}

// Each team hosts 16 of the games, and wins them.
#[test]
fn the_largest_table_is_played(rt: HostRuntime) -> Result<(), Fail> {
    let file = level_file(&rt, [0, 0], 1024)?;
    let results = vec![in rt.alloc(); 2u8; 1024]?;
    let mut points = [99u16; 64];
    let mut row = [OLD; 1024];
    assert_eq!(rt;
        table_after(&file, &results, &mut points, &mut row),
        Ok(Sizes {
            teams: 64,
            games: 0,
        })
    );
    assert_eq!(rt; points, [32; 64]);
    assert_eq!(rt; row, [OLD; 1024]);
    Ok(())
}

#[test]
fn the_last_team_of_the_largest_table_is_told(rt: HostRuntime) -> Result<(), Fail> {
    let file = full_file(&rt, 1024)?;
    let mut results = vec![in rt.alloc(); 255u8; 63]?;
    results.push(2)?;
    check_refused(&rt, &file, &results, LARGEST, Refusal::PointsAbove(63));
    let row_short = Sizes {
        games: 1023,
        ..LARGEST
    };
    let refusal = Refusal::MemoryShort(Lent::Row);
    check_refused(&rt, &file, &results, row_short, refusal);
    Ok(())
}

// What is answered of an ending of the table of three, and the points in memory that had other things before.
fn check_points(rt: &impl Abort, ending: &[u8], answer: Result<Sizes, Refusal>, points: [u16; 4]) {
    let mut now = [99u16; 4];
    assert_eq!(rt; points_after(&THREE, ending, &mut now), answer);
    assert_eq!(rt; now, points);
}

#[test]
fn an_ending_gives_the_points_of_each_team(rt: HostRuntime) {
    let taken = Ok(Sizes { teams: 3, games: 2 });
    check_points(&rt, &[2, 0], taken, [10, 6, 4, 99]);
    check_points(&rt, &[1, 1], taken, [8, 7, 5, 99]);
    check_points(&rt, &[0, 2], taken, [6, 8, 6, 99]);
    let mut now = [0u16; 2];
    let file = [2, 232, 3, 232, 3, 0, 1];
    assert_eq!(rt;
        points_after(&file, &[2], &mut now),
        Ok(Sizes { teams: 2, games: 1 })
    );
    assert_eq!(rt; now, [1002, 1000], "an ending may pass 1,000");
}

#[test]
fn bytes_that_are_no_ending_are_refused(rt: HostRuntime) {
    let old = [99; 4];
    check_points(&rt, &[2], Err(Refusal::AuditEnding(1)), old);
    check_points(&rt, &[2, 0, 0], Err(Refusal::AuditEnding(3)), old);
    check_points(&rt, &[2, 3], Err(Refusal::AuditEnding(1)), old);
    // its length comes first
    check_points(&rt, &[3, 3, 3], Err(Refusal::AuditEnding(3)), old);
    let mut short = [99u16; 2];
    assert_eq!(rt;
        points_after(&THREE, &[2], &mut short),
        Err(Refusal::MemoryShort(Lent::Points))
    );
    assert_eq!(rt; short, [99; 2]);
}

#[test]
fn games_left_are_counted_at_home_and_away(rt: HostRuntime) {
    let games = [FIRST, SECOND];
    assert_eq!(rt; left_of(&games, 0), 2);
    assert_eq!(rt; left_of(&games, 1), 1);
    assert_eq!(rt; left_of(&games, 2), 1);
    assert_eq!(rt; left_of(&games, 3), 0);
    assert_eq!(rt; most_of(6, 2), 10);
    assert_eq!(rt; most_of(65535, 65535), 196605);
}

// A tie at the top counts as first.
#[test]
fn a_team_is_sure_if_none_can_pass_it(rt: HostRuntime) {
    let level = [2, 6, 0, 6, 0];
    assert_eq!(rt; sure_first(&level, 0), Ok(true));
    assert_eq!(rt; sure_first(&level, 1), Ok(true));
    let caught = [2, 6, 0, 4, 0, 0, 1];
    assert_eq!(rt; sure_first(&caught, 0), Ok(true));
    assert_eq!(rt; sure_first(&caught, 1), Ok(false));
    let passed = [2, 6, 0, 5, 0, 0, 1];
    assert_eq!(rt; sure_first(&passed, 0), Ok(false));
    assert_eq!(rt; sure_first(&THREE, 0), Ok(false), "1 can come to 8");
}

#[test]
fn a_team_that_is_not_there_is_not_sure(rt: HostRuntime) {
    assert_eq!(rt; sure_first(&THREE, 3), Err(Refusal::AuditEnding(0)));
    assert_eq!(rt;
        sure_first(&THREE, usize::MAX),
        Err(Refusal::AuditEnding(0))
    );
    assert_eq!(rt; sure_first(&THREE[..6], 3), Err(Refusal::FileEnds(6)));
}
