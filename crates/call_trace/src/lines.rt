// The lines of the calls' answers, put into an output.
use std::fmt::Display;
use std::io;
use std::io::Write;
use tags::refusal::Refusal;

// The line of a call that is refused.
pub(crate) fn put_refusal<W: Write>(output: &mut W, call: &str, why: Refusal) -> io::Result<()> {
    writeln!(output, "{call} refused {} {}", why.number(), why.detail())
}

// The line of a call that answers one number or word.
pub(crate) fn put_answer<W: Write, T: Display + Drop>(
    output: &mut W,
    call: &str,
    answer: Result<T, Refusal>,
) -> io::Result<()> {
    match answer {
        Ok(told) => writeln!(output, "{call} {told}"),
        Err(why) => put_refusal(output, call, why),
    }
}

// The line of a part: its bytes as numbers.
pub(crate) fn put_part<W: Write>(output: &mut W, call: &str, part: &[u8]) -> io::Result<()> {
    write!(output, "{call}")?;
    for b in part {
        write!(output, " {b}")?;
    }
    writeln!(output)
}

// The line of what stands at an address.
pub(crate) fn put_found<W: Write>(
    output: &mut W,
    call: &str,
    found: Option<u32>,
) -> io::Result<()> {
    match found {
        Some(n) => writeln!(output, "{call} {n}"),
        None => writeln!(output, "{call} none"),
    }
}
