// What games give a team: points in those with a result, and the most there is in those left.
ghost use Rattle.std.specs.Prelude.{◌≡◌, ◌<◌, ◌≤◌, ◌||◌, map, length, Some, None, ◌==◌};
ghost use Rattle.season.specs.Encoding.{match_of};
ghost use Rattle.season.specs.Plan.{pick};
ghost use Rattle.season.specs.Table.{Ending, final, left_of, most};
ghost use Rattle.standings.specs.Held.{held};
ghost use Rattle.standings.specs.Results.{after, byte_beside, is_result, share, share_beside, won};

use crate::table::Table;
use season::game::Game;

// The points that a game shares between its two teams.
pub(crate) const SHARED: u8 = 2;

// Whether game `k` has a result.
pub(crate) fn is_played(results: &[u8], k: usize) -> bool
    ensures { result ≡ is_result (byte_beside results.now k) }
{
    results.get(k).is_some_and(|points| *points <= SHARED)
}

// What a team gets of one side's points: nothing where the side is another team's.
fn share_at(side: u8, points: u8, team: usize) -> u16
    ensures { result ≡ pick (side == team) points 0 }
{
    if usize::from(side) == team {
        u16::from(points)
    } else {
        0
    }
}

// What a team gets of a game by the byte beside it, the host's points: nothing where that is no result.
fn share_in(game: Game, points: u8, team: usize) -> u16
    ensures { result ≡ share_beside (match_of game) points team }
{
    if points > SHARED {
        return 0;
    }
    share_at(game.host, points, team) + share_at(game.guest, SHARED - points, team)
}

// What a team gained in the games with a result. A row of results may be longer or shorter than any row of games that it is lent beside,
// so the two are no type.
pub(crate) fn gained_by(games: &[Game], results: &[u8], team: usize) -> u16
    requires { length games.now ≤ 1024 }
    ensures { result ≡ won (map match_of games.now) results.now team }
{
    games
        .iter()
        .zip(results)
        .map(|(game, points)| share_in(*game, *points, team))
        .sum()
}

impl Table<'_> {
    // The points of a team with what it gained in the games with a result; after an ending, its points at the end.
    pub(crate) fn points_with(self, results: &[u8], team: usize) -> u16
        requires { team < length self.points.now }
        ensures answer { result ≡ (after (held self.entry) results.now).points team }
        ensures ended { Ending (held self.entry).left results.now →
            result ≡ final (held self.entry) results.now team }
    {
        self.points[team] + gained_by(self.games, results, team)
    }
}

// Whether a team plays in a game.
fn plays(game: Game, team: usize) -> bool
    ensures { result ≡ (game.host == team || game.guest == team) }
{
    usize::from(game.host) == team || usize::from(game.guest) == team
}

// How many games a team has left. They are counted by hand, since `filter` and `count` take half as long again.
pub fn left_of(games: &[Game], team: usize) -> usize
    ensures { result ≡ left_of (map match_of games.now) team }
{
    let mut left = 0;
    for game in games {
        if plays(*game, team) {
            left += 1;
        }
    }
    left
}

// The most that a team can come to, with its points and its games left.
pub fn most_of(points: u16, left: u16) -> u32
    ensures { result ≡ most points left }
{
    u32::from(points) + 2 * u32::from(left)
}
