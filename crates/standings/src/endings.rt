// The points after an ending, which gives the host's points for each game left, in order.
ghost use Rattle.std.specs.Prelude.{◌≡◌, ◌<◌, ◌≤◌, length, IfOk};
ghost use Rattle.season.specs.Encoding.{table_in};
ghost use Rattle.season.specs.Refused.{told};
ghost use Rattle.season.specs.Rows.{written};
ghost use Rattle.season.specs.Table.{Ending, final};
ghost use Rattle.standings.specs.Asked.{finals_then, outcome_ended};
ghost use Rattle.standings.specs.Held.{held};

use crate::asked::check_ending;
use crate::own::{LARGEST, OwnTable};
use crate::table::Table;
use season::refusal::Refusal;
use season::rows::write_front;
use season::table::Sizes;

impl Table<'_> {
    // The points of a team after an ending. That the bytes are one each method asks for itself: they are lent as they came, and
    // `check_ending` tells.
    pub fn final_points(self, ending: &[u8], team: usize) -> u16
        requires ending { Ending (held self).left ending.now }
        requires team { team < length self.points.now }
        ensures { result ≡ final (held self.entry) ending.now team }
    {
        self.points_with(ending, team)
    }

    // Writes the points of each team after an ending.
    fn write_finals(self, ending: &[u8], finals: &mut [u16])
        requires ending { Ending (held self).left ending.now }
        requires room { length self.points.now ≤ length finals.old }
        ensures { finals.new ≡ written (final (held self.entry) ending.now)
            (length self.entry.points.now) finals.old }
    {
        write_front(
            finals,
            self.points.len(),
            |team| self.final_points(ending, team),
        );
    }
}

// The points of each team of a table's file after an ending, into lent memory. Answers the sizes of the table, or the refusal of
// the reader, or of bytes that are no ending of its games, and then nothing lent has changed.
pub fn points_after(file: &[u8], ending: &[u8], points: &mut [u16]) -> Result<Sizes, Refusal>
    ensures answer { told result ≡ outcome_ended file.now ending.now (length points.old) }
    ensures points { points.new ≡ finals_then (told result) (table_in file.now) ending.now
        points.old }
    ensures ending { IfOk result (λ s. Ending (table_in file.now).left ending.now) }
{
    let room = Sizes {
        teams: points.len(),
        ..LARGEST
    };
    let own = OwnTable::read(file, room)?;
    check_ending(ending, own.sizes)?;
    own.lend().write_finals(ending, points);
    Ok(own.sizes)
}
