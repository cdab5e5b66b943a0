// Calls of programs: what their words ask for, and the statuses that they end with.
use call::{Asked, Program, refuse};
use std::alloc::Global;
use std::env::FillError;
use std::fmt::Display;
use std::io;
use std::process::ExitCode;
use std::rt::Env;
use std::test::Fail;

// A program that ends with the status that its one word says.
const PROGRAM: Program = Program {
    name: "end",
    expected: "one status",
    usage: "usage: end STATUS",
};

// A process that was called by a line of words with a space between each two, the program's name first.
#[derive(Clone, Copy)]
struct Called<'a> {
    rt: &'a HostRuntime,
    line: &'a str,
}

impl Env for Called<'_> {
    fn arg(&self, i: usize, buf: &mut [u8]) -> Result<usize, FillError> {
        let word = self.line.split(' ').nth(i).ok_or(FillError::NotPresent)?;
        let room = buf.get_mut(..word.len()).ok_or(FillError::TooLong)?;
        room.copy_from_slice(word.as_bytes());
        Ok(word.len())
    }

    fn var(&self, _name: &str, _buf: &mut [u8]) -> Result<usize, FillError> {
        Err(FillError::NotPresent)
    }

    fn var_at(&self, _i: usize, _buf: &mut [u8]) -> Result<usize, FillError> {
        Err(FillError::NotPresent)
    }
}

impl Alloc for Called<'_> {
    type A = Global;

    fn alloc(&self) -> Global {
        self.rt.alloc()
    }
}

impl Print for Called<'_> {
    fn print<D: Display + Drop>(&self, value: D) -> io::Result<()> {
        self.rt.print(value)
    }

    fn println<D: Display + Drop>(&self, value: D) -> io::Result<()> {
        self.rt.println(value)
    }

    fn write_all(&self, bytes: &[u8]) -> io::Result<()> {
        self.rt.write_all(bytes)
    }
}

impl Eprint for Called<'_> {
    fn eprint<D: Display + Drop>(&self, value: D) -> io::Result<()> {
        self.rt.eprint(value)
    }

    fn eprintln<D: Display + Drop>(&self, value: D) -> io::Result<()> {
        self.rt.eprintln(value)
    }
}

// The status that the one word says, or none.
fn asked_by(heap: Global, word: Option<String>) -> io::Result<Asked<u8>> {
    match word.and_then(|word| word.parse::<u8>().ok()) {
        Some(status) => Ok(Asked::For(status)),
        None => Ok(Asked::Unclear(String::from_str(heap, "no status is given")?)),
    }
}

// What a process ends with that was called by this line.
fn ended(rt: &HostRuntime, line: &str) -> ExitCode {
    let called = Called { rt, line };
    PROGRAM.run(
        &called,
        |word| asked_by(rt.alloc(), word),
        |status| Ok(ExitCode::from(status)),
    )
}

#[test]
fn words_ask_for_a_status_or_for_the_usage(rt: HostRuntime) {
    for (line, status) in [
        ("end 0", 0),
        ("end 7", 7),
        ("end 255", 255),
        ("end --help", 0),
        ("end -h", 0),
        ("end", 1),
        ("end ", 1),
        ("end --helpful", 1),
        ("end 7 7", 1),
        ("end 7 --help", 1),
        ("end --help 7 7", 1),
    ] {
        assert_eq!(rt; ended(&rt, line), ExitCode::from(status), "{line}");
    }
}

#[test]
fn what_cannot_be_meant_or_told_has_status_1(rt: HostRuntime) {
    let unmeant = PROGRAM.run(
        &rt,
        |_| Err(io::Error::from(io::ErrorKind::InvalidData)),
        |status: u8| Ok(ExitCode::from(status)),
    );
    assert_eq!(rt; unmeant, ExitCode::FAILURE);
    let untold = PROGRAM.run(
        &rt,
        |_| Ok(Asked::For(())),
        |_| Err(io::Error::from(io::ErrorKind::NotFound)),
    );
    assert_eq!(rt; untold, ExitCode::FAILURE);
}

#[test]
fn refusals_and_failures_have_status_1(rt: HostRuntime) -> Result<(), Fail> {
    assert_eq!(rt; refuse(&rt, "refused 1 at 0")?, ExitCode::FAILURE);
    assert_eq!(rt; PROGRAM.fail(&rt, "no status")?, ExitCode::FAILURE);
    Ok(())
}
