// The command lines *SAV n, *RCL n and SYSTem:ERRor? (A.3): every line has one reading.
#![tactic(auto)]

ghost use Rattle.std.specs.Prelude.{◌≡◌, ◌≤◌, drop, true, false, SomeIff, MatchOption};
ghost use Rattle.lines.specs.Line.{asks, begins, header, is_query, last_number, numbered, parameter, reading, value};
ghost use Rattle.lines.specs.Meaning.{asked_by, command_of, verb_of};

use errors::Error;

// What a line asks for: nothing, a set-up saved or recalled, or the oldest error.
#[derive(Clone, Copy, Debug, PartialEq, Eq)]
pub enum Command {
    Nothing,
    Save(usize),
    Recall(usize),
    Query,
}

// The two commands with a number.
#[derive(Clone, Copy, Debug, PartialEq, Eq)]
enum Verb {
    Sav,
    Rcl,
}

impl Verb {
    // How a line with it begins: letters may have either case.
    fn header(self) -> &'static [u8]
        ensures { result.now ≡ header (verb_of self) }
    {
        match self {
            Verb::Sav => b"*SAV",
            Verb::Rcl => b"*RCL",
        }
    }

    // What follows its header, if the line begins with that.
    fn behind(self, line: &[u8]) -> Option<&[u8]>
        ensures { MatchOption result (begins (header (verb_of self)) line.now ≡ false)
            (λ rest. (begins (header (verb_of self)) line.now ≡ true) × (rest.now ≡ drop 4 line.now)) }
    {
        let header = self.header();
        let (front, rest) = line.split_at_checked(header.len())?;
        front.eq_ignore_ascii_case(header).then_some(rest)
    }

    // The command with its number.
    fn with(self, n: usize) -> Command
        ensures { asked_by result ≡ asks (verb_of self) n }
    {
        match self {
            Verb::Sav => Command::Save(n),
            Verb::Rcl => Command::Recall(n),
        }
    }
}

// The number that digits spell, if it is at most 9. A loop with a way out: once above 9 it stays so, and digits to come need not fit a usize.
fn number(digits: &[u8]) -> Option<usize>
    ensures { SomeIff result (value digits.now ≤ last_number) (value digits.now) }
{
    let mut n = 0;
    for &b in digits {
        n = 10 * n + usize::from(b.saturating_sub(b'0'));
        if n > 9 {
            return None;
        }
    }
    Some(n)
}

// The command, by what follows its header and the blank.
fn with_number(verb: Verb, s: &[u8]) -> Result<Command, Error>
    ensures { command_of result ≡ numbered (verb_of verb) s.now }
{
    if s.is_empty() {
        return Err(Error::MissingParameter);
    }
    if !s.iter().all(|b| b.is_ascii_digit()) {
        return Err(Error::DataType);
    }
    let n = number(s).ok_or(Error::OutOfRange)?;
    Ok(verb.with(n))
}

// The command, by what follows its header.
fn with_parameter(verb: Verb, s: &[u8]) -> Result<Command, Error>
    ensures { command_of result ≡ parameter (verb_of verb) s.now }
{
    let (&blank, rest) = s.split_first().ok_or(Error::MissingParameter)?;
    if blank != b' ' {
        return Err(Error::UndefinedHeader);
    }
    with_number(verb, rest)
}

// Whether a line asks for the oldest error: each of the two words is short or long.
fn is_query(line: &[u8]) -> bool
    ensures { result ≡ is_query line.now }
{
    line.eq_ignore_ascii_case(b"SYST:ERR?")
        || line.eq_ignore_ascii_case(b"SYST:ERROR?")
        || line.eq_ignore_ascii_case(b"SYSTEM:ERR?")
        || line.eq_ignore_ascii_case(b"SYSTEM:ERROR?")
}

// Reads a line, given without its line end; or its error.
pub fn read(line: &[u8]) -> Result<Command, Error>
    ensures { command_of result ≡ reading line.now }
{
    if line.len() > 80 {
        return Err(Error::UndefinedHeader);
    }
    if line.is_empty() {
        return Ok(Command::Nothing);
    }
    if let Some(rest) = Verb::Sav.behind(line) {
        return with_parameter(Verb::Sav, rest);
    }
    if let Some(rest) = Verb::Rcl.behind(line) {
        return with_parameter(Verb::Rcl, rest);
    }
    if is_query(line) {
        return Ok(Command::Query);
    }
    Err(Error::UndefinedHeader)
}
