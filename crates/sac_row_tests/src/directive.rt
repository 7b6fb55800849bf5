//! The lines of a table of cases.

/// What a line asks for.
#[derive(Clone, Copy)]
pub enum Directive<'a> {
    /// Begins a case, with the words behind the program's name.
    Words(&'a str),
    /// The text that follows belongs to the source.
    Source,
    /// The text that follows belongs to the input.
    Input,
    /// Appends a line.
    Line(&'a str),
    /// Appends a text so many times.
    Text(u64, &'a str),
    /// Appends the bytes of these numbers.
    Bytes(&'a str),
    /// Runs the case with each of these numbers of workers.
    Run(&'a str),
    /// Runs the case with each of these numbers of workers, and says how many phases there were.
    Phases(&'a str),
    /// Runs the case with each of these numbers of workers, and says how many phases there were and how many buffers were taken, given back and reused.
    Counters(&'a str),
    /// Counts the bodies of its loops that have kernels, where calls may go so many levels deep.
    Kernels(u64),
    /// Runs the case with two workers, of which each chunk waits for the other one.
    Meet,
    /// Runs the case with so many workers, where one chunk waits until another one has begun: the numbers of the two chunks, and of the workers.
    Hold(&'a str),
    /// Runs the case over files of which one fetch fails, and a sink of which one call fails.
    Devices(u64, u64),
    /// Runs the case over sinks that take one byte a call, of which the first call fails, then the second, and so on.
    Sinks(u64),
    /// Runs the case over files of which the first fetch fails, then the second, and so on.
    Files(u64),
    /// Runs the case with each front of the text that was filled last, of fewer bytes than this.
    Fronts(u64),
    /// None of these.
    Unknown,
}

impl<'a> Directive<'a> {
    /// What a line asks for: its first word, and behind one space what it takes.
    pub fn of(line: &'a str) -> Directive<'a> {
        let Some((word, rest)) = line.split_once(' ') else {
            return match line {
                "source" => Directive::Source,
                "input" => Directive::Input,
                "line" => Directive::Line(""),
                "meet" => Directive::Meet,
                _ => Directive::Unknown,
            };
        };
        match word {
            "words" => Directive::Words(rest),
            "line" => Directive::Line(rest),
            "bytes" => Directive::Bytes(rest),
            "run" => Directive::Run(rest),
            "phases" => Directive::Phases(rest),
            "counters" => Directive::Counters(rest),
            "kernels" => Directive::Kernels(number(rest)),
            "hold" => Directive::Hold(rest),
            "devices" => match rest.split_once(' ') {
                Some((fetch, call)) => Directive::Devices(number(fetch), number(call)),
                None => Directive::Unknown,
            },
            "sinks" => Directive::Sinks(number(rest)),
            "files" => Directive::Files(number(rest)),
            "fronts" => Directive::Fronts(number(rest)),
            "times" => match rest.split_once(' ') {
                Some((count, text)) => Directive::Text(number(count), text),
                None => Directive::Unknown,
            },
            _ => Directive::Unknown,
        }
    }
}

// The number that is written, or 0.
fn number(text: &str) -> u64 {
    match text.parse::<u64>() {
        Ok(number) => number,
        Err(_) => 0,
    }
}
