// How a program is called: what the words of the call ask for, and the status that the program ends with.
#![tactic(auto)]

ghost use Rattle.std.specs.Prelude.{◌≡◌};
ghost use Rattle.std.specs.Vec.Iter.{into_iter_items};
ghost use Rattle.call.specs.Call.{Ends, EndsWith, Fails, Reads, ReadsSome, asks_help};

use std::alloc::Global;
use std::env::Args;
use std::fmt::Display;
use std::process::ExitCode;
use std::rt::Env;
use std::{env, io};

// What the words of a call ask for: how the program is called, what it is there for, or nothing that is clear, and why.
#[derive(Drop)]
pub enum Asked<T> {
    Help,
    For(T),
    Unclear(String),
}

// Whether a word asks how the program is called.
fn asks_help(word: &str) -> bool
    ensures { result ≡ asks_help word.now }
{
    word == "--help" || word == "-h"
}

// Prints a refusal, which is an answer too, and has the program end with status 1.
pub fn refuse(rt: &impl Print, refusal: impl Display + Drop) -> io::Result<ExitCode>
    ensures { Fails result }
{
    println!(rt; "{refusal}")?;
    Ok(ExitCode::FAILURE)
}

// A program by its name, by what its one word is expected to be, as in `one file`, and by what it says of how it is called.
#[derive(Clone, Copy)]
pub struct Program<'a> {
    pub name: &'a str,
    pub expected: &'a str,
    pub usage: &'a str,
}

impl Program<'_> {
    // What words ask for, of which one is expected at most: what the one word means, or none, is for `meant` to say. That `meant` may be
    // called each function asks that it is passed through, since only the caller can show it of a closure.
    fn read<T, F>(&self, heap: Global, mut words: Args, meant: F) -> io::Result<Asked<T>>
    where
        F: FnOnce(Option<String>) -> io::Result<Asked<T>> + Drop,
        requires { F.IsAlwaysCallable meant }
        ensures { Reads (F.post meant) self.now.expected.now (into_iter_items words) result }
    {
        let Some(word) = words.next() else {
            return meant(None);
        };
        if let Some(more) = words.next() {
            let expected = self.expected;
            return Ok(Asked::Unclear(format!(in heap;
                "{expected} is expected, and `{more}` is too much"
            )?));
        }
        if asks_help(word.as_str()) {
            return Ok(Asked::Help);
        }
        meant(Some(word))
    }

    // What the words of this call ask for, after the program's name, unless they cannot be read.
    fn read_words<R, T, F>(&self, rt: &R, meant: F) -> io::Result<Asked<T>>
    where
        R: Env + AllocGlobal,
        F: FnOnce(Option<String>) -> io::Result<Asked<T>> + Drop,
        requires { F.IsAlwaysCallable meant }
        ensures { ReadsSome (F.post meant) self.now.expected.now result }
    {
        // The name is taken off here and not by `skip`, so that `read` is given words and can promise something of them.
        let mut words = env::args(rt)?;
        let _name = words.next();
        self.read(rt.alloc(), words, meant)
    }

    // Says on standard error why the program fails, and has it end with status 1.
    pub fn fail(&self, rt: &impl Eprint, why: impl Display + Drop) -> io::Result<ExitCode>
        ensures { Fails result }
    {
        let name = self.name;
        eprintln!(rt; "{name}: {why}")?;
        Ok(ExitCode::FAILURE)
    }

    // Has `tell` answer what was asked for, or says how the program is called: if it was asked for, or else why it fails.
    fn answer<R, T, F>(&self, rt: &R, asked: io::Result<Asked<T>>, tell: F) -> io::Result<ExitCode>
    where
        R: Print + Eprint,
        F: FnOnce(T) -> io::Result<ExitCode> + Drop,
        requires { F.IsAlwaysCallable tell }
        ensures { Ends (F.post tell) asked result }
    {
        let usage = self.usage;
        match asked {
            Ok(Asked::Help) => {
                println!(rt; "{usage}")?;
                Ok(ExitCode::SUCCESS)
            }
            Ok(Asked::For(it)) => tell(it),
            Ok(Asked::Unclear(why)) => self.fail(rt, format_args!("{why}\n\n{usage}")),
            Err(why) => self.fail(
                rt,
                format_args!("the words of the call cannot be read: {why}"),
            ),
        }
    }

    // Has `tell` answer what the words of this call ask for, and gives the status that the program ends with. It is 1 where that could
    // not be done: of a failed write, or of memory that has run out, only the status tells, and all else has been told of by then.
    pub fn run<R, T, M, F>(&self, rt: &R, meant: M, tell: F) -> ExitCode
    where
        R: Env + AllocGlobal + Print + Eprint,
        M: FnOnce(Option<String>) -> io::Result<Asked<T>> + Drop,
        F: FnOnce(T) -> io::Result<ExitCode> + Drop,
        requires word { M.IsAlwaysCallable meant }
        requires told { F.IsAlwaysCallable tell }
        ensures { (asked : _) × ReadsSome (M.post meant) self.now.expected.now asked × EndsWith (F.post tell) asked result }
    {
        let asked = self.read_words(rt, meant);
        self.answer(rt, asked, tell).unwrap_or(ExitCode::FAILURE)
    }
}
