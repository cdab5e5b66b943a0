// The reader of table files. A file has the number of teams in one byte, two bytes of points for each team, the low one first,
// then host and guest of each game left. It is read into lent memory, or turned away by the first check that applies.
ghost use Rattle.std.specs.Prelude.{◌≡◌, ◌+◌, ◌*◌, ◌^◌, ◌<◌, ◌≤◌, ◌&&◌, length, nat_lt, IfOk};
ghost use Rattle.std.specs.Simd.{first_chunks};
ghost use Rattle.season.specs.Bytes.{number_at, game_at};
ghost use Rattle.season.specs.Encoding.{Exact, Holds};
ghost use Rattle.season.specs.Reading.{outcome, points_after, games_after, teams_in, sizes_in, points_in, games_in};
ghost use Rattle.season.specs.Reading.{unless_at, unless_short};
ghost use Rattle.season.specs.Reading.{unserved, cut, above, wrong_length, absent, against_itself};
ghost use Rattle.season.specs.Refused.{told, given, unless};
ghost use Rattle.season.specs.Rows.{written};

use crate::game::Game;
use crate::plan::MOST_TEAMS;
use crate::refusal::{Lent, Refusal};
use crate::rows::{refuse_first, write_front};

// The most points that a team of a table may have.
pub const MOST_POINTS: u16 = 1000;

// The most games that a table may have left.
pub const MOST_GAMES: usize = 1024;

// How many teams a table has, and how many games are left. It stands beside memory that is lent, which may be longer than the table.
#[derive(Clone, Copy, PartialEq, Eq, Debug)]
pub struct Sizes {
    pub teams: usize,
    pub games: usize,
}

// Where the points of so many teams end in a file.
fn points_end(teams: usize) -> usize
    requires { 1 + 2 * teams < 2 ^ 64 }
    ensures { result ≡ 1 + 2 * teams }
{
    1 + 2 * teams
}

// A table's file whose points are whole, with the sizes that it gives.
#[derive(Clone, Copy)]
struct TableFile<'a> {
    bytes: &'a [u8],
    sizes: Sizes,
    ghost whole: { 1 + 2 * sizes.teams ≤ length bytes.now },
    ghost sizes_given: { sizes ≡ sizes_in bytes.now },
}

impl<'a> TableFile<'a> {
    // Two bytes for the points of each team.
    fn points(&self) -> &'a [[u8; 2]]
        ensures { result.now ≡ first_chunks 2 self.now.sizes.teams (points_in self.now.bytes.now) }
    {
        self.bytes[1..points_end(self.sizes.teams)]
            .as_chunks::<2>()
            .0
    }

    // Two bytes for each game left.
    fn games(&self) -> &'a [[u8; 2]]
        ensures { result.now ≡ first_chunks 2 self.now.sizes.games (games_in self.now.bytes.now self.now.sizes) }
    {
        self.bytes[points_end(self.sizes.teams)..]
            .as_chunks::<2>()
            .0
    }

    // Refuses points above 1,000.
    fn check_points(&self) -> Result<Sizes, Refusal>
        ensures { told result ≡ unless_at (above (points_in self.now.bytes.now)) self.now.sizes.teams 4 (given self.now.sizes) }
    {
        refuse_first(
            self.points(),
            |pair| is_above(*pair),
            Refusal::PointsAbove,
            self.sizes,
        )
    }

    // Refuses games that are not two bytes each, and more than 1,024 of them.
    fn check_games_whole(&self) -> Result<Sizes, Refusal>
        ensures { told result ≡
            unless (wrong_length self.now.bytes.now self.now.sizes) 5 (length self.now.bytes.now) (given self.now.sizes) }
    {
        let length = self.bytes.len();
        if (length - points_end(self.sizes.teams)) % 2 == 1 || self.sizes.games > MOST_GAMES {
            return Err(Refusal::GamesLength(length));
        }
        Ok(self.sizes)
    }

    // Refuses a game with a team that is not there.
    fn check_teams_there(&self) -> Result<Sizes, Refusal>
        ensures { told result ≡
            unless_at (absent (games_in self.now.bytes.now self.now.sizes) self.now.sizes.teams) self.now.sizes.games 6
            (given self.now.sizes) }
    {
        refuse_first(
            self.games(),
            |pair| !is_there(Game::from(*pair), self.sizes.teams),
            Refusal::NoSuchTeam,
            self.sizes,
        )
    }

    // Refuses a game of a team with itself.
    fn check_two_teams(&self) -> Result<Sizes, Refusal>
        ensures { told result ≡
            unless_at (against_itself (games_in self.now.bytes.now self.now.sizes)) self.now.sizes.games 7 (given self.now.sizes) }
    {
        refuse_first(
            self.games(),
            |[host, guest]| host == guest,
            Refusal::AgainstItself,
            self.sizes,
        )
    }

    // Writes the points of each team.
    fn write_points(&self, points: &mut [u16])
        requires { self.now.sizes.teams ≤ length points.old }
        ensures { points.new ≡ written (number_at (points_in self.now.bytes.now)) self.now.sizes.teams points.old }
    {
        let pairs = self.points();
        write_front(points, pairs.len(), |team| points_of(pairs[team]));
    }

    // Writes the games left.
    fn write_games(&self, row: &mut [Game])
        requires { self.now.sizes.games ≤ length row.old }
        ensures { row.new ≡ written (game_at (games_in self.now.bytes.now self.now.sizes)) self.now.sizes.games row.old }
    {
        let pairs = self.games();
        write_front(row, pairs.len(), |k| Game::from(pairs[k]));
    }
}

// The points that two bytes hold.
fn points_of(pair: [u8; 2]) -> u16
    ensures { result ≡ number_at pair 0 }
{
    u16::from_le_bytes(pair)
}

// Whether the points that two bytes hold are above 1,000.
fn is_above(pair: [u8; 2]) -> bool
    ensures { result ≡ nat_lt 1000 (number_at pair 0) }
{
    points_of(pair) > MOST_POINTS
}

// Whether both teams of a game are among so many.
fn is_there(game: Game, teams: usize) -> bool
    ensures { result ≡ (nat_lt game.host teams && nat_lt game.guest teams) }
{
    usize::from(game.host) < teams && usize::from(game.guest) < teams
}

// Refuses fewer than 2 and more than 64 teams; else the sizes that the file's length gives.
fn check_teams(file: &[u8]) -> Result<Sizes, Refusal>
    ensures { told result ≡ unless (unserved (teams_in file.now)) 2 0 (given (sizes_in file.now)) }
{
    let Some(&teams) = file.first() else {
        return Err(Refusal::TableTeams);
    };
    let teams = usize::from(teams);
    if !(2..=MOST_TEAMS).contains(&teams) {
        return Err(Refusal::TableTeams);
    }
    let games = file.len().saturating_sub(points_end(teams)) / 2;
    Ok(Sizes { teams, games })
}

// Refuses lent memory that is too short: the row of games first, then the points.
fn check_memory(sizes: Sizes, room: Sizes) -> Result<Sizes, Refusal>
    ensures { told result ≡ unless_short sizes room.games room.teams (given sizes) }
{
    if room.games < sizes.games.min(MOST_GAMES) {
        return Err(Refusal::MemoryShort(Lent::Row));
    }
    if room.teams < sizes.teams {
        return Err(Refusal::MemoryShort(Lent::Points));
    }
    Ok(sizes)
}

// Refuses a file that ends before its points are whole.
fn check_points_whole(file: &[u8], sizes: Sizes) -> Result<Sizes, Refusal>
    requires { sizes.teams ≤ 64 }
    ensures { told result ≡ unless (cut file.now sizes) 3 (length file.now) (given sizes) }
{
    if file.len() < points_end(sizes.teams) {
        return Err(Refusal::FileEnds(file.len()));
    }
    Ok(sizes)
}

// The checks of a table's file, one after the other: each hands on the sizes, or its refusal is the answer. By a rule of
// the project this list is written out by `let .. else`, check below check, as the rules stand in the document.
fn check_file(file: &[u8], room: Sizes) -> Result<Sizes, Refusal>
    ensures { told result ≡ outcome file.now room.games room.teams }
{
    let checked = check_teams(file);
    let Ok(sizes) = checked else {
        return checked;
    };
    let checked = check_memory(sizes, room);
    let Ok(sizes) = checked else {
        return checked;
    };
    let checked = check_points_whole(file, sizes);
    let Ok(sizes) = checked else {
        return checked;
    };
    let table = TableFile { bytes: file, sizes };
    let checked = table.check_points();
    let Ok(_) = checked else {
        return checked;
    };
    let checked = table.check_games_whole();
    let Ok(_) = checked else {
        return checked;
    };
    let checked = table.check_teams_there();
    let Ok(_) = checked else {
        return checked;
    };
    table.check_two_teams()
}

// Checks the whole file before the first write. `read_table` promises the same, and what follows from it.
fn read_checked(file: &[u8], points: &mut [u16], row: &mut [Game]) -> Result<Sizes, Refusal>
    ensures answer { told result ≡ outcome file.now (length row.old) (length points.old) }
    ensures points { points.new ≡ points_after (told result) file.now points.old }
    ensures games { row.new ≡ games_after (told result) file.now row.old }
{
    let room = Sizes {
        teams: points.len(),
        games: row.len(),
    };
    let sizes = check_file(file, room)?;
    let table = TableFile { bytes: file, sizes };
    table.write_points(points);
    table.write_games(row);
    Ok(sizes)
}

// Reads a table's file into lent memory: the points of each team, and the row of games left. Answers the sizes, or the refusal of
// the first check that applies, and then nothing lent has changed.
pub fn read_table(file: &[u8], points: &mut [u16], row: &mut [Game]) -> Result<Sizes, Refusal>
    ensures answer { told result ≡ outcome file.now (length row.old) (length points.old) }
    ensures points { points.new ≡ points_after (told result) file.now points.old }
    ensures games { row.new ≡ games_after (told result) file.now row.old }
    ensures exact { Exact file.now result points.new row.new }
    ensures held { IfOk result (λ s. Holds file.now s points.new row.new) }
{
    read_checked(file, points, row)
}
