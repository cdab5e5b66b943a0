// Reads a table's file, and says what it holds.
#![tactic(auto)]

ghost use Rattle.std.specs.Prelude.{◌≡◌, true, false, IfOk, MatchResult};
ghost use Rattle.call.specs.Call.{Fails, OnSuccess};
ghost use Rattle.season.specs.Reading.{outcome};
ghost use Rattle.season.specs.Refused.{is_given};

use call::{Asked, Program, refuse};
use season::game::Game;
use season::table::{Sizes, read_table};
use std::io::Read;
use std::process::ExitCode;
use std::{fs, io};

// What the program says of how it is called.
const USAGE: &str = "\
usage: season_first [FILE]

Reads a table's file, or standard input where no file is named, and says how many teams it has and how many games are left.
The file has the number of teams in one byte, two bytes of points for each team, the low one first, and then host and guest
of each game left, one byte each. It may have 2 to 32 teams, and up to 256 games.
Prints `refused NUMBER at PLACE` for a file that breaks a rule, and ends with status 1.

example: season_first table.bin";

// The program, as its calls are answered.
const PROGRAM: Program = Program {
    name: "season_first",
    expected: "one file",
    usage: USAGE,
};

// The most teams that this program has memory for.
const TEAMS: usize = 32;

// The most games that it has memory for.
const GAMES: usize = 256;

// Prints what the file holds, or the refusal. It ends well only if the file is taken, else with status 1.
fn tell(rt: &HostRuntime, file: &[u8]) -> io::Result<ExitCode>
    ensures told { OnSuccess result (is_given (outcome file.now 256 32) ≡ true) }
    ensures refused { is_given (outcome file.now 256 32) ≡ false → Fails result }
{
    let mut points = [0u16; TEAMS];
    let mut row = [Game { host: 0, guest: 0 }; GAMES];
    match read_table(file, &mut points, &mut row) {
        Ok(Sizes { teams, games }) => {
            println!(rt; "teams {teams}, games left {games}")?;
            Ok(ExitCode::SUCCESS)
        }
        Err(refusal) => refuse(rt, refusal),
    }
}

// Tells of the file that was read, or says that it could not be. It ends well only if it was read, and is taken, else with status 1.
fn go_on(rt: &HostRuntime, name: &str, read: io::Result<Vec<u8>>) -> io::Result<ExitCode>
    ensures told { MatchResult read (λ v. OnSuccess result (is_given (outcome v.items 256 32) ≡ true)) (λ _. Fails result) }
    ensures refused { IfOk read (λ v. is_given (outcome v.items 256 32) ≡ false → Fails result) }
{
    match read {
        Ok(file) => tell(rt, &file),
        Err(why) => PROGRAM.fail(rt, format_args!("{name}: {why}")),
    }
}

// Reads all of standard input.
fn read_input(rt: &HostRuntime) -> io::Result<Vec<u8>> {
    let mut file = Vec::new(rt.alloc());
    rt.stdin().read_to_end(&mut file)?;
    Ok(file)
}

// Reads the file of this name and tells of it, or of standard input where none is named.
fn tell_file(rt: &HostRuntime, path: Option<String>) -> io::Result<ExitCode> {
    match path {
        Some(path) => go_on(rt, path.as_str(), fs::read(rt, path.as_str())),
        None => go_on(rt, "standard input", read_input(rt)),
    }
}

// Tells of the file that the one word names, or of standard input, or says how the program is called.
fn main(rt: HostRuntime) -> ExitCode {
    PROGRAM.run(
        &rt,
        |path| Ok(Asked::For(path)),
        |path| tell_file(&rt, path),
    )
}
