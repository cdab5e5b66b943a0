// Games, as rows of bytes have them: host and guest, one byte each.
ghost use Rattle.std.specs.Prelude.{◌≡◌, ◌/◌, length, if◌then◌else◌, Some, None, nat_lt};
ghost use Rattle.season.specs.Bytes.{game_at, game_text};

use std::fmt;

// A game of two teams, by their numbers.
#[derive(Clone, Copy, PartialEq, Eq, Debug)]
pub struct Game {
    pub host: u8,
    pub guest: u8,
}

// The game that two bytes name, the host first.
impl From<[u8; 2]> for Game {
    ghost from_gives = { λ pair game. game ≡ game_at pair 0 };

    fn from([host, guest]: [u8; 2]) -> Game {
        Game { host, guest }
    }
}

impl fmt::Display for Game {
    ghost output = { λ game. Some (game_text game) };

    fn fmt<W: fmt::Write>(&self, f: &mut fmt::Formatter<W>) -> fmt::Result {
        let host = self.host;
        let guest = self.guest;
        write!(f, "{host}-{guest}")
    }
}

// The game at place `k` of a row of games, as a round has it, or `None` where the row ends before.
pub fn game_in(row: &[u8], k: usize) -> Option<Game>
    ensures { result ≡ (if nat_lt k (length row.now / 2) then Some (game_at row.now k) else None) }
{
    let (pairs, _) = row.as_chunks::<2>();
    let pair = pairs.get(k)?;
    Some(Game::from(*pair))
}
