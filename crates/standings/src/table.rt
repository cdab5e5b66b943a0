// A table as two rows, lent for reading.
ghost use Rattle.season.specs.Encoding.{Within, table_held};

use season::game::Game;
use season::table::Sizes;

// A table within the limits: the points of each team, and the games left. That a team is there each method asks for itself: a type of
// a table and a team of it would be no plainer, since the methods ask about one team, two, or all.
#[derive(Clone, Copy, Debug)]
pub struct Table<'a> {
    pub points: &'a [u16],
    pub games: &'a [Game],
    ghost within: { Within (table_held points.now games.now) },
}

impl Table<'_> {
    ghost use Rattle.std.specs.Prelude.{◌≡◌};
    ghost use Rattle.season.specs.Encoding.{sizes_of};
    ghost use Rattle.standings.specs.Held.{held};

    // How many teams it has, and how many games are left.
    pub fn sizes(self) -> Sizes
        ensures { result ≡ sizes_of (held self.entry) }
    {
        Sizes {
            teams: self.points.len(),
            games: self.games.len(),
        }
    }
}
