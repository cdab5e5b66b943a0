// What is asked of a table: refuses a team that is not there, and a row of bytes that is no ending.
ghost use Rattle.std.specs.Prelude.{◌≡◌};
ghost use Rattle.season.specs.Refused.{told, given};
ghost use Rattle.standings.specs.Asked.{unless_absent, unless_no_ending};

use crate::gains::SHARED;
use season::refusal::Refusal;
use season::rows::refuse_first;
use season::table::Sizes;

// Refuses a team that is not there.
pub fn check_team(team: usize, sizes: Sizes) -> Result<Sizes, Refusal>
    ensures { told result ≡ unless_absent team sizes.teams (given sizes) }
{
    if team >= sizes.teams {
        return Err(Refusal::AuditEnding(0));
    }
    Ok(sizes)
}

// Refuses a row of bytes that is no ending: not one for each game left, or one above 2.
pub fn check_ending(ending: &[u8], sizes: Sizes) -> Result<Sizes, Refusal>
    ensures { told result ≡ unless_no_ending ending.now sizes.games (given sizes) }
{
    if ending.len() != sizes.games {
        return Err(Refusal::AuditEnding(ending.len()));
    }
    refuse_first(
        ending,
        |points| *points > SHARED,
        Refusal::AuditEnding,
        sizes,
    )
}
