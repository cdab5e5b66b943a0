// Prints the plan for a number of teams, with the fewest breaks there can be.
#![tactic(auto)]

ghost use Rattle.std.specs.Prelude.{◌≡◌, ◌/◌, ◌<◌, length, true, false, Decides, IfOk, string_bytes};
ghost use Rattle.call.specs.Call.{Fails, OnSuccess};
ghost use Rattle.planner.specs.Circle.{plan_length, unless_unfit};
ghost use Rattle.season.specs.Refused.{given, is_given};
ghost use Rattle.season_plan.specs.Lines.{line_of};
ghost use Rattle.season_plan.specs.Words.{AsksFor, Numbered, teams_of};
ghost use Rattle.std.specs.Str.Parse.{IsNumeral, without_leading_plus};

use call::{Asked, Program, refuse};
use planner::circle::write_plan;
use season::game::Game;
use season::plan::round_in;
use std::alloc::Global;
use std::io;
use std::process::ExitCode;

// What the program says of how it is called.
const USAGE: &str = "\
usage: season_plan TEAMS

Prints the season's plan with the fewest breaks there can be, for an even number of teams from 2 to 32, numbered from 0:
a line for each round with its games, host first, and then the number of breaks. A break is two home games running, or two
away. The return half repeats the rounds with home and away exchanged.
Prints `refused 1 at 0` for an odd number of teams, 0, or more than 64, and `refused 10 at 0` for 34 to 64, for which it has
no memory, and ends with status 1.

example: season_plan 20";

// The program, as its calls are answered.
const PROGRAM: Program = Program {
    name: "season_plan",
    expected: "one number of teams",
    usage: USAGE,
};

// The most teams that this program has memory for.
const TEAMS: usize = 32;

// Whether there is one decimal digit or more, and nothing else.
fn all_digits(bytes: &[u8]) -> bool
    ensures { Decides result (IsNumeral 10 bytes.now) }
{
    !bytes.is_empty() && bytes.iter().all(|b| b.is_ascii_digit())
}

// Whether a text is a numeral: digits, with a plus before them or not. The library's `parse` cannot tell, since it calls too large as
// well what is no numeral, but begins with a large one.
fn is_numeral(text: &str) -> bool
    ensures { Decides result (IsNumeral 10 (without_leading_plus text.now)) }
{
    let bytes = text.as_bytes();
    all_digits(bytes.strip_prefix(b"+").unwrap_or(bytes))
}

// The number that a text writes. One that is too large for the machine counts as the largest, which is refused all the same.
fn number_in(text: &str) -> Option<usize>
    ensures { Numbered text.now result }
{
    match text.parse::<usize>() {
        Ok(n) => Some(n),
        Err(_) if is_numeral(text) => Some(usize::MAX),
        Err(_) => None,
    }
}

// What the one word asks for, or none.
fn asked_by(heap: Global, word: Option<String>) -> io::Result<Asked<usize>>
    ensures { IfOk result (λ asked. AsksFor word (teams_of asked)) }
{
    let Some(word) = word else {
        return Ok(Asked::Unclear(String::from_str(heap, "no number of teams is given")?));
    };
    match number_in(word.as_str()) {
        Some(n) => Ok(Asked::For(n)),
        None => Ok(Asked::Unclear(format!(in heap; "`{word}` is no number of teams")?)),
    }
}

// A round as a line of text, as in `round 0: 3-0 1-2`.
fn round_line(heap: Global, r: usize, round: &[u8]) -> io::Result<String>
    ensures { IfOk result (λ line. string_bytes line ≡ line_of r round.now (length round.now / 2)) }
{
    let mut line = format!(in heap; "round {r}:")?;
    let (pairs, _) = round.as_chunks::<2>();
    for pair in pairs {
        let game = Game::from(*pair);
        write!(line, " {game}")?;
    }
    Ok(line)
}

// Prints a line for each round of the plan's first half, which has one round fewer than teams.
fn print_rounds(rt: &HostRuntime, n: usize, plan: &[u8]) -> io::Result<()>
    requires { 0 < n }
{
    for (r, round) in (0..n - 1).map_while(|r| round_in(plan, n, r)).enumerate() {
        let line = round_line(rt.alloc(), r, round)?;
        println!(rt; "{line}")?;
    }
    Ok(())
}

// Prints the plan, or the refusal. It ends well only if a plan is made for so many teams, and there is memory for it, else with status 1.
fn tell(rt: &HostRuntime, n: usize) -> io::Result<ExitCode>
    ensures told { OnSuccess result (is_given (unless_unfit n (plan_length 32) (given n)) ≡ true) }
    ensures refused { is_given (unless_unfit n (plan_length 32) (given n)) ≡ false → Fails result }
{
    let mut plan = [0u8; TEAMS * (TEAMS - 1)];
    match write_plan(n, &mut plan) {
        Ok(breaks) => {
            print_rounds(rt, n, &plan)?;
            println!(rt; "breaks {breaks}")?;
            Ok(ExitCode::SUCCESS)
        }
        Err(refusal) => refuse(rt, refusal),
    }
}

// Prints the plan for as many teams as the one word says, or how the program is called.
fn main(rt: HostRuntime) -> ExitCode {
    PROGRAM.run(&rt, |word| asked_by(rt.alloc(), word), |n| tell(&rt, n))
}
