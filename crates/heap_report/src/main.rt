// The report program: one byte, the sheet's length, then sheet, heap, records and log from standard input to the report, or to
// `refused N`, on standard output. Images are those of the kernel's profile. It reads no more than decides the answer: a sheet that is
// refused ends it, and of the log one byte more than is lawful. A read that fails counts as the end of the input, and a write that
// fails ends the program with its error.
#![tactic(auto)]

ghost use Rattle.std.specs.Prelude.{◌≤◌, length};
ghost use Rattle.sheet.specs.Fields.{sheet_length};

use lines::text;
use report::answer;
use sheet::lent::Image;
use sheet::opening::Lengths;
use sheet::{fields, opening};
use std::io;
use std::io::{Read, Write};
use tags::format::Profile;
use tags::refusal::Refusal;

// The program on inputs that give one byte a read or fail.
#[cfg(test)]
mod tests;

// Reads until the space is full, the input ends or a read fails, and answers how many bytes there were: std's `read_exact` does not
// tell it, and `read_to_end` takes memory. A read that a signal interrupts counts as one that failed.
fn read_full<R: Read>(input: &mut R, space: &mut [u8]) -> usize
    ensures { result ≤ length space.new }
{
    let mut done = 0;
    while done < space.len() {
        match input.read(&mut space[done..]) {
            Ok(0) | Err(_) => break,
            Ok(n) => done += n,
        }
    }
    done
}

// Reads up to n bytes to the start of a space, and answers those that there were.
fn read_in<'a, R: Read>(input: &mut R, space: &'a mut [u8], n: usize) -> &'a [u8]
    requires { n ≤ length space.old }
    ensures { length result.now ≤ n }
{
    let len = read_full(input, &mut space[..n]);
    &space[..len]
}

// Writes the line of a refusal, for which there is room. It promises nothing of what it writes, and so stands in each program that
// reports, and not in a crate that they share.
fn tell_refusal<W: Write>(output: &mut W, why: Refusal) -> io::Result<()> {
    let mut line = [0u8; 16];
    match text::write_refusal(why, &mut line) {
        Some(n) => output.write_all(&line[..n]),
        None => Ok(()),
    }
}

// Writes the answer to what was read: the report, or why there is none. The input has no magazine list: it is empty. No report is
// longer than the space for its text. A call of its own, since compiled into `main` the space would be on the stack for an input that
// is refused by its first bytes, too.
#[inline(never)]
fn tell<W: Write>(output: &mut W, image: &Image, log: &[u8]) -> io::Result<()> {
    let mut text = [0u8; 65535];
    match answer::report(Profile::Kernel, image, &[], log, &mut text) {
        Ok(n) => output.write_all(&text[..n as usize]),
        Err(why) => tell_refusal(output, why),
    }
}

// Reads areas of these lengths and the log behind them.
fn read_areas<R: Read, W: Write>(
    input: &mut R,
    output: &mut W,
    sheet: &[u8],
    lengths: Lengths,
) -> io::Result<()>
    requires heap_len_bound { lengths.heap ≤ 65536 }
    requires records_len_bound { lengths.records ≤ 49152 }
{
    let mut heap = [0u8; 65536];
    let mut records = [0u8; 49152];
    let mut log = [0u8; 16385];
    let image = Image {
        sheet,
        heap: read_in(input, &mut heap, lengths.heap),
        records: read_in(input, &mut records, lengths.records),
    };
    tell(output, &image, read_in(input, &mut log, 16385))
}

// Reads on behind a sheet, unless the sheet alone decides.
fn read_on<R: Read, W: Write>(input: &mut R, output: &mut W, sheet: &[u8]) -> io::Result<()> {
    match opening::area_lengths(Profile::Kernel, sheet) {
        Ok(lengths) => read_areas(input, output, sheet, lengths),
        Err(why) => tell_refusal(output, why),
    }
}

// Reads a sheet of so many bytes, and on behind it. One that ends early is none, though it may have the length of the short form.
fn read_sheet<R: Read, W: Write>(input: &mut R, output: &mut W, len: usize) -> io::Result<()>
    requires { len ≤ sheet_length }
{
    let mut space = [0u8; fields::LENGTH];
    let sheet = read_in(input, &mut space, len);
    if sheet.len() < len {
        return tell_refusal(output, Refusal::BadSheet);
    }
    read_on(input, output, sheet)
}

// Reads the byte that says the sheet's length, and on behind it.
fn report_all<R: Read, W: Write>(input: &mut R, output: &mut W) -> io::Result<()> {
    let mut first = [0u8; 1];
    if read_full(input, &mut first) < 1 {
        return tell_refusal(output, Refusal::BadSheet);
    }
    let len = usize::from(first[0]);
    if fields::LENGTH < len {
        return tell_refusal(output, Refusal::BadSheet);
    }
    read_sheet(input, output, len)
}

fn main(rt: HostRuntime) -> io::Result<()> {
    report_all(&mut rt.stdin(), &mut rt.stdout())
}
