// A table in memory of one's own, which has room for the largest.
ghost use Rattle.std.specs.Prelude.{◌≤◌, length};
ghost use Rattle.season.specs.Encoding.{Within, table_front};

use crate::results::play_results;
use crate::table::Table;
use season::game::Game;
use season::plan::MOST_TEAMS;
use season::refusal::Refusal;
use season::table::{MOST_GAMES, Sizes, read_table};

// Room for the largest table.
pub(crate) const LARGEST: Sizes = Sizes {
    teams: MOST_TEAMS,
    games: MOST_GAMES,
};

// A table within the limits, in front of fixed room for the largest: nothing here is on a heap.
#[derive(Drop)]
pub(crate) struct OwnTable {
    points: [u16; MOST_TEAMS],
    row: [Game; MOST_GAMES],
    pub(crate) sizes: Sizes,
    ghost teams_there: { sizes.teams ≤ length points },
    ghost games_there: { sizes.games ≤ length row },
    ghost within: { Within (table_front sizes points row) },
}

impl OwnTable {
    ghost use Rattle.std.specs.Prelude.{◌≡◌, IfOk};
    ghost use Rattle.season.specs.Encoding.{Same, table_in};
    ghost use Rattle.season.specs.Reading.{outcome};
    ghost use Rattle.standings.specs.Held.{held, owned, told_sizes};
    ghost use Rattle.standings.specs.Results.{after, told_after};

    // Reads a table's file, and answers as the reader does for lent memory with room for so many teams and games.
    pub(crate) fn read(file: &[u8], room: Sizes) -> Result<Self, Refusal>
        ensures answer { told_sizes result ≡ outcome file.now room.games room.teams }
        ensures table { IfOk result (λ t. Same (owned t) (table_in file.now)) }
    {
        let mut own_points = [0; MOST_TEAMS];
        let mut own_row = [Game { host: 0, guest: 0 }; MOST_GAMES];
        let points = &mut own_points[..room.teams.min(MOST_TEAMS)];
        let row = &mut own_row[..room.games.min(MOST_GAMES)];
        let sizes = read_table(file, points, row)?;
        Ok(OwnTable {
            points: own_points,
            row: own_row,
            sizes,
        })
    }

    // The table, lent for reading.
    pub(crate) fn lend(&self) -> Table<'_>
        ensures { held result ≡ owned self.now }
    {
        Table {
            points: &self.points[..self.sizes.teams],
            games: &self.row[..self.sizes.games],
        }
    }

    // The table after the results, or the refusal of a team whose points would pass 1,000.
    pub(crate) fn play(self, results: &[u8]) -> Result<Self, Refusal>
        ensures answer { told_sizes result ≡ told_after (owned self) results.now }
        ensures table { IfOk result (λ t. Same (after (owned self) results.now) (owned t)) }
    {
        let OwnTable {
            mut points,
            mut row,
            sizes: Sizes { teams, games },
        } = self;
        let sizes = play_results(&mut points[..teams], &mut row[..games], results)?;
        Ok(OwnTable { points, row, sizes })
    }
}
