// Table files: what is read, and what is turned away.
use season::game::Game;
use season::refusal::{Lent, Refusal};
use season::table::{Sizes, read_table};
use std::array;
use std::test::Fail;

// 6 6 4 points, with the games 0-1 and 2-0 left.
pub const THREE: [u8; 11] = [3, 6, 0, 6, 0, 4, 0, 0, 1, 2, 0];

// What lent memory has before, which is no game of a file.
pub const OLD: Game = Game {
    host: 77,
    guest: 88,
};

// The largest table, and room for any.
pub const LARGEST: Sizes = Sizes {
    teams: 64,
    games: 1024,
};

// What is answered with room for a table of these sizes, which are at most the largest.
fn answer(file: &[u8], room: Sizes) -> Result<Sizes, Refusal> {
    let mut points = [99u16; 64];
    let mut row = [OLD; 1024];
    read_table(
        file,
        &mut points[..room.teams.min(64)],
        &mut row[..room.games.min(1024)],
    )
}

#[test]
fn a_table_of_three_is_read(rt: HostRuntime) {
    let mut points = [99u16; 4];
    let mut row = [OLD; 3];
    assert_eq!(rt;
        read_table(&THREE, &mut points, &mut row),
        Ok(Sizes { teams: 3, games: 2 })
    );
    assert_eq!(rt; points, [6, 6, 4, 99]);
    assert_eq!(rt;
        row,
        [Game { host: 0, guest: 1 }, Game { host: 2, guest: 0 }, OLD]
    );
}

#[test]
fn what_is_refused_changes_nothing(rt: HostRuntime) {
    let mut points = [99u16; 4];
    let mut row = [OLD; 3];
    let file = [3, 6, 0, 6, 0, 4, 0, 0, 1, 2, 2];
    assert_eq!(rt;
        read_table(&file, &mut points, &mut row),
        Err(Refusal::AgainstItself(1))
    );
    assert_eq!(rt; points, [99; 4]);
    assert_eq!(rt; row, [OLD; 3]);
}

#[test]
fn teams_are_2_to_64(rt: HostRuntime) {
    let refused: [&[u8]; 5] = [&[], &[0], &[1, 0, 0], &[65], &[255]];
    for file in refused {
        assert_eq!(rt; answer(file, LARGEST), Err(Refusal::TableTeams), "{file:?}");
    }
    assert_eq!(rt;
        answer(&[2, 0, 0, 0, 0], LARGEST),
        Ok(Sizes { teams: 2, games: 0 })
    );
}

#[test]
fn points_are_whole(rt: HostRuntime) {
    assert_eq!(rt; answer(&THREE[..1], LARGEST), Err(Refusal::FileEnds(1)));
    assert_eq!(rt; answer(&THREE[..6], LARGEST), Err(Refusal::FileEnds(6)));
    assert_eq!(rt;
        answer(&THREE[..7], LARGEST),
        Ok(Sizes { teams: 3, games: 0 })
    );
}

// 1,000 is 232 and 3 × 256.
#[test]
fn points_are_at_most_1000(rt: HostRuntime) {
    for (file, team) in [
        ([3, 233, 3, 6, 0, 4, 0], 0),
        ([3, 232, 3, 6, 0, 233, 3], 2),
        ([3, 0, 0, 0, 4, 255, 255], 1),
    ] {
        assert_eq!(rt;
            answer(&file, LARGEST),
            Err(Refusal::PointsAbove(team)),
            "{file:?}"
        );
    }
    assert_eq!(rt;
        answer(&[2, 232, 3, 232, 3], LARGEST),
        Ok(Sizes { teams: 2, games: 0 })
    );
}

#[test]
fn games_are_two_bytes_each(rt: HostRuntime) {
    assert_eq!(rt; answer(&THREE[..8], LARGEST), Err(Refusal::GamesLength(8)));
    assert_eq!(rt;
        answer(&THREE[..10], LARGEST),
        Err(Refusal::GamesLength(10))
    );
}

#[test]
fn both_teams_of_a_game_are_there(rt: HostRuntime) {
    for (file, game) in [
        ([3, 6, 0, 6, 0, 4, 0, 3, 1, 2, 0], 0),
        ([3, 6, 0, 6, 0, 4, 0, 0, 255, 2, 0], 0),
        ([3, 6, 0, 6, 0, 4, 0, 0, 1, 2, 3], 1),
    ] {
        assert_eq!(rt;
            answer(&file, LARGEST),
            Err(Refusal::NoSuchTeam(game)),
            "{file:?}"
        );
    }
}

#[test]
fn a_game_has_two_teams(rt: HostRuntime) {
    for (file, game) in [
        ([3, 6, 0, 6, 0, 4, 0, 1, 1, 2, 0], 0),
        ([3, 6, 0, 6, 0, 4, 0, 0, 1, 2, 2], 1),
    ] {
        assert_eq!(rt;
            answer(&file, LARGEST),
            Err(Refusal::AgainstItself(game)),
            "{file:?}"
        );
    }
}

#[test]
fn memory_is_one_entry_short(rt: HostRuntime) {
    let room = Sizes { teams: 3, games: 2 };
    assert_eq!(rt; answer(&THREE, room), Ok(Sizes { teams: 3, games: 2 }));
    assert_eq!(rt;
        answer(&THREE, Sizes { games: 1, ..room }),
        Err(Refusal::MemoryShort(Lent::Row))
    );
    assert_eq!(rt;
        answer(&THREE, Sizes { teams: 2, ..room }),
        Err(Refusal::MemoryShort(Lent::Points))
    );
}

// The order of the checks: number of teams, memory, points, games, teams there, two teams.
#[test]
fn the_number_of_teams_is_looked_at_first(rt: HostRuntime) {
    let cases: [(&[u8], usize, usize, &str); 7] = [
        (&[1, 0, 0, 0, 0], 1, 0, "and too little memory for the row"),
        (&[65], 0, 0, "and too little memory for the points"),
        (&[65, 0], 64, 1024, "and a file that ends early"),
        (&[1, 233, 3], 64, 1024, "and points above 1,000"),
        (&[1, 0, 0, 0], 64, 1024, "and half a game"),
        (&[1, 0, 0, 0, 1], 64, 1024, "and a team that is not there"),
        (&[1, 0, 0, 0, 0], 64, 1024, "and a team against itself"),
    ];
    for (file, teams, games, also) in cases {
        let room = Sizes { teams, games };
        assert_eq!(rt; answer(file, room), Err(Refusal::TableTeams), "{also}");
    }
}

#[test]
fn memory_is_looked_at_next(rt: HostRuntime) {
    let row = Err(Refusal::MemoryShort(Lent::Row));
    let row_short: [(&[u8], usize, usize, &str); 5] = [
        (&THREE, 2, 1, "and too little for the points"),
        (&[2, 233, 3, 0, 0, 0, 1], 2, 0, "and points above 1,000"),
        (&[2, 0, 0, 0, 0, 0, 1, 0], 2, 0, "and half a game"),
        (&[2, 0, 0, 0, 0, 0, 2], 2, 0, "and a team that is not there"),
        (&[2, 0, 0, 0, 0, 0, 0], 2, 0, "and a team against itself"),
    ];
    for (file, teams, games, also) in row_short {
        assert_eq!(rt; answer(file, Sizes { teams, games }), row, "{also}");
    }
    let points = Err(Refusal::MemoryShort(Lent::Points));
    let points_short: [(&[u8], usize, usize, &str); 5] = [
        (&[2, 0, 0], 1, 0, "and a file that ends early"),
        (&[2, 233, 3, 0, 0, 0, 1], 1, 1, "and points above 1,000"),
        (&[2, 0, 0, 0, 0, 0], 1, 0, "and half a game"),
        (&[2, 0, 0, 0, 0, 0, 2], 1, 1, "and a team that is not there"),
        (&[2, 0, 0, 0, 0, 0, 0], 1, 1, "and a team against itself"),
    ];
    for (file, teams, games, also) in points_short {
        assert_eq!(rt; answer(file, Sizes { teams, games }), points, "{also}");
    }
}

#[test]
fn points_are_looked_at_before_games(rt: HostRuntime) {
    assert_eq!(rt;
        answer(&[2, 233, 3], LARGEST),
        Err(Refusal::FileEnds(3)),
        "a file that ends early, points above 1,000"
    );
    let files: [(&[u8], &str); 3] = [
        (&[2, 0, 0, 233, 3, 0], "and half a game"),
        (&[2, 0, 0, 233, 3, 0, 2], "and a team that is not there"),
        (&[2, 0, 0, 233, 3, 0, 0], "and a team against itself"),
    ];
    for (file, also) in files {
        assert_eq!(rt;
            answer(file, LARGEST),
            Err(Refusal::PointsAbove(1)),
            "{also}"
        );
    }
}

#[test]
fn games_are_looked_at_number_by_number(rt: HostRuntime) {
    let cases: [(&[u8], Refusal, &str); 4] = [
        (
            &[2, 0, 0, 0, 0, 0, 2, 0],
            Refusal::GamesLength(8),
            "half a game, a team that is not there",
        ),
        (
            &[2, 0, 0, 0, 0, 0, 0, 0],
            Refusal::GamesLength(8),
            "half a game, a team against itself",
        ),
        (
            &[2, 0, 0, 0, 0, 0, 0, 0, 2],
            Refusal::NoSuchTeam(1),
            "a team against itself in game 0",
        ),
        (
            &[2, 0, 0, 0, 0, 2, 2],
            Refusal::NoSuchTeam(0),
            "the same team, and not there",
        ),
    ];
    for (file, refusal, also) in cases {
        assert_eq!(rt; answer(file, LARGEST), Err(refusal), "{also}");
    }
}

// Game `k` of a row of games of each of 64 teams with the next.
fn game_with_next(k: usize) -> Game {
    // The cast loses nothing: it is of a number below 64.
    let host = (k % 64) as u8;
    Game {
        host,
        guest: (host + 1) % 64,
    }
}

// A file of 64 teams with the same points, in two bytes, and so many games of each team with the next.
pub(crate) fn level_file(rt: &HostRuntime, points: [u8; 2], games: usize) -> Result<Vec<u8>, Fail> {
    let mut file = vec![in rt.alloc(); 64u8]?;
    file.extend_from_slice([points; 64].as_flattened())?;
    for game in (0..games).map(game_with_next) {
        file.extend_from_slice(&[game.host, game.guest])?;
    }
    Ok(file)
}

// The same with 1,000 points each.
pub(crate) fn full_file(rt: &HostRuntime, games: usize) -> Result<Vec<u8>, Fail> {
    level_file(rt, [232, 3], games)
}

#[test]
fn the_largest_table_is_read(rt: HostRuntime) -> Result<(), Fail> {
    let file = full_file(&rt, 1024)?;
    let mut points = [99u16; 64];
    let mut row = [OLD; 1024];
    assert_eq!(rt; read_table(&file, &mut points, &mut row), Ok(LARGEST));
    assert_eq!(rt; points, [1000; 64]);
    assert_eq!(rt; row, array::from_fn(game_with_next));
    let row_short = Sizes {
        games: 1023,
        ..LARGEST
    };
    assert_eq!(rt;
        answer(&file, row_short),
        Err(Refusal::MemoryShort(Lent::Row))
    );
    let points_short = Sizes {
        teams: 63,
        ..LARGEST
    };
    assert_eq!(rt;
        answer(&file, points_short),
        Err(Refusal::MemoryShort(Lent::Points))
    );
    Ok(())
}

// The same file with another last byte.
fn with_last(mut file: Vec<u8>, byte: u8) -> Vec<u8> {
    if let Some(last) = file.last_mut() {
        *last = byte;
    }
    file
}

#[test]
fn the_last_places_are_told(rt: HostRuntime) -> Result<(), Fail> {
    let points = with_last(full_file(&rt, 0)?, 4);
    assert_eq!(rt; answer(&points, LARGEST), Err(Refusal::PointsAbove(63)));
    let games = with_last(full_file(&rt, 1024)?, 64);
    assert_eq!(rt; answer(&games, LARGEST), Err(Refusal::NoSuchTeam(1023)));
    let games = with_last(games, 63);
    assert_eq!(rt; answer(&games, LARGEST), Err(Refusal::AgainstItself(1023)));
    Ok(())
}

#[test]
fn a_row_of_1025_games_is_too_long(rt: HostRuntime) -> Result<(), Fail> {
    let file = full_file(&rt, 1025)?;
    assert_eq!(rt; answer(&file, LARGEST), Err(Refusal::GamesLength(2179)));
    let row_short = Sizes {
        games: 1023,
        ..LARGEST
    };
    assert_eq!(rt;
        answer(&file, row_short),
        Err(Refusal::MemoryShort(Lent::Row)),
        "memory is looked at first"
    );
    Ok(())
}
