// Results, a row of bytes beside a row of games: 0, 1 and 2 are the host's points; any other byte, or none, is a game not yet
// played. What they make of a table: new points, and fewer games left.
ghost use Rattle.std.specs.Prelude.{◌≡◌, ◌<◌, ◌≤◌, ◌++◌, map, length, take, drop, IfOk};
ghost use Rattle.season.specs.Encoding.{Within, match_of, sizes_of, table_held, table_in};
ghost use Rattle.season.specs.Reading.{unless_at};
ghost use Rattle.season.specs.Refused.{told, given};
ghost use Rattle.season.specs.Rows.{written};
ghost use Rattle.standings.specs.Held.{held};
ghost use Rattle.standings.specs.Results.{Low, Played, after, game_of, games_then, outcome_after, passes_limit};
ghost use Rattle.standings.specs.Results.{points_then, told_after, unplayed};

use crate::gains::{gained_by, is_played};
use crate::own::OwnTable;
use crate::table::Table;
use season::game::Game;
use season::refusal::Refusal;
use season::table::{MOST_POINTS, Sizes};

impl Table<'_> {
    // Whether a team would have more than 1,000 points after the results.
    fn passes_limit(self, results: &[u8], team: usize) -> bool
        requires { team < length self.points.now }
        ensures { result ≡ passes_limit (after (held self.entry) results.now) team }
    {
        self.points_with(results, team) > MOST_POINTS
    }

    // Refuses results after which a team would have more than 1,000 points; else the sizes of the table. It goes by the number of a
    // team, and not by `refuse_first`, since the points of a team after results follow from the whole table.
    fn check_gains(self, results: &[u8]) -> Result<Sizes, Refusal>
        ensures { told result ≡ unless_at (passes_limit (after (held self.entry) results.now))
            (held self.entry).teams 4 (given (sizes_of (held self.entry))) }
    {
        let Some(team) = (0..self.points.len()).find(|team| self.passes_limit(results, *team))
        else {
            return Ok(self.sizes());
        };
        Err(Refusal::PointsAbove(team))
    }
}

// Adds what each team gained.
fn add_gains(points: &mut [u16], games: &[Game], results: &[u8])
    requires few { length games.now ≤ 1024 }
    requires low { Low (after (table_held points.old games.now) results.now) }
    ensures { points.new ≡ written
        (after (table_held points.old games.now) results.now).points
        (length points.old) points.old }
{
    for (team, had) in points.iter_mut().enumerate() {
        *had += gained_by(games, results, team);
    }
}

// Moves the games without a result to the front, in order, and answers how many there are. It counts places, since a lent row has
// no `retain`, and an iterator over the row would keep it from being written.
fn keep_unplayed(games: &mut [Game], results: &[u8]) -> usize
    ensures answer { result ≡ length (unplayed (map match_of games.old) results.now) }
    ensures games { games.new ≡
        map game_of (unplayed (map match_of games.old) results.now) ++ drop result games.old }
{
    let mut left = 0;
    for k in 0..games.len() {
        if !is_played(results, k) {
            games[left] = games[k];
            left += 1;
        }
    }
    left
}

// The table after the results, of a table that was read: the new points, and the games still left in front, in order. Answers
// the sizes, or refuses a team whose points would pass 1,000, and then nothing has changed. It writes both rows, and so takes them as
// they are and not as a `Table`.
pub fn play_results(
    points: &mut [u16],
    games: &mut [Game],
    results: &[u8],
) -> Result<Sizes, Refusal>
    requires { Within (table_held points.old games.old) }
    ensures answer { told result ≡ told_after (table_held points.old games.old) results.now }
    ensures points { points.new ≡ points_then (told result)
        (after (table_held points.old games.old) results.now) points.old }
    ensures games { games.new ≡ games_then (told result)
        (after (table_held points.old games.old) results.now) games.old }
    ensures played { IfOk result (λ s. Played (table_held points.old games.old) results.now s
        points.new games.new) }
{
    let table = Table { points, games };
    let sizes = table.check_gains(results)?;
    add_gains(points, games, results);
    let games = keep_unplayed(games, results);
    Ok(Sizes { games, ..sizes })
}

// Copies a row to the front of another.
fn copy_front<T: Copy>(to: &mut [T], from: &[T])
    requires { length from.now ≤ length to.old }
    ensures { to.new ≡ from.now ++ drop (length from.now) to.old }
{
    to[..from.len()].copy_from_slice(from);
}

// The table of a file after the results, into lent memory: the new points, and the games still left, in order. Answers the sizes,
// or the refusal of the reader, or of a team whose points would pass 1,000, and then nothing lent has changed.
pub fn table_after(
    file: &[u8],
    results: &[u8],
    points: &mut [u16],
    row: &mut [Game],
) -> Result<Sizes, Refusal>
    ensures answer { told result ≡ outcome_after file.now results.now
        (length row.old) (length points.old) }
    ensures points { points.new ≡ points_then (told result)
        (after (table_in file.now) results.now) points.old }
    ensures games { row.new ≡ games_then (told result)
        (after (table_in file.now) results.now) row.old }
    ensures played { IfOk result (λ s. Played (table_in file.now) results.now s
        points.new row.new) }
{
    let room = Sizes {
        teams: points.len(),
        games: row.len(),
    };
    let own = OwnTable::read(file, room)?.play(results)?;
    let table = own.lend();
    copy_front(points, table.points);
    copy_front(row, table.games);
    Ok(own.sizes)
}
