// The reports of a set of stored images, one behind the other, of either profile and in either order: images of the dump's geometry
// with no log, from standard input, each behind a byte that names its profile. What it writes is held to the text that the second
// program makes of the same images. A read that fails counts as the end of the input, and a write that fails ends the program with
// its error.
#![tactic(auto)]

ghost use Rattle.std.specs.Prelude.{◌≤◌, ◌<◌, length};

use lines::text;
use report::answer;
use sheet::fields;
use sheet::lent::Image;
use std::io;
use std::io::{Read, Write};
use tags::format::Profile;
use tags::refusal::Refusal;

// Where the heap and the records of an image stand, and the ends of the two kinds: the kernel's records have 96 bytes, userland's 100.
const HEAP: usize = fields::LENGTH;

const RECORDS: usize = HEAP + 3 * 40;

const KERNEL_END: usize = RECORDS + 3 * 96;

const USERLAND_END: usize = RECORDS + 3 * 100;

// Writes the line of a refusal, for which there is room. It promises nothing of what it writes, and so stands in each program that
// reports, and not in a crate that they share.
fn tell_refusal<W: Write>(output: &mut W, why: Refusal) -> io::Result<()> {
    let mut line = [0u8; 16];
    match text::write_refusal(why, &mut line) {
        Some(n) => output.write_all(&line[..n]),
        None => Ok(()),
    }
}

// Writes the answer to an image: the report, or why there is none.
fn tell<W: Write>(output: &mut W, profile: Profile, image: &Image) -> io::Result<()> {
    let mut text = [0u8; 1024];
    match answer::report(profile, image, &[], &[], &mut text) {
        Ok(n) => output.write_all(&text[..n as usize]),
        Err(why) => tell_refusal(output, why),
    }
}

// The same of an image whose areas stand one behind the other.
fn tell_image<W: Write>(output: &mut W, profile: Profile, bytes: &[u8]) -> io::Result<()>
    requires { 172 ≤ length bytes.now }
{
    let image = Image {
        sheet: &bytes[0..HEAP],
        heap: &bytes[HEAP..RECORDS],
        records: &bytes[RECORDS..],
    };
    tell(output, profile, &image)
}

// Reads until the space is full, the input ends or a read fails, and answers how many bytes there were. A read that a signal
// interrupts counts as one that failed: std's `read_exact` would try it again.
fn read_full<R: Read>(input: &mut R, space: &mut [u8]) -> usize
    ensures { result ≤ length space.new }
{
    let mut done = 0;
    while done < space.len() {
        match input.read(&mut space[done..]) {
            Ok(0) | Err(_) => break,
            Ok(n) => done += n,
        }
    }
    done
}

// Reads an image of N bytes and tells it, and answers whether there was one.
fn tell_bytes<const N: usize, R: Read, W: Write>(
    input: &mut R,
    output: &mut W,
    profile: Profile,
) -> io::Result<bool>
    requires least { 172 ≤ N }
    requires most { N < 1024 }
{
    let mut bytes = [0u8; N];
    if read_full(input, &mut bytes) < N {
        return Ok(false);
    }
    tell_image(output, profile, &bytes)?;
    Ok(true)
}

// The same of whatever stands next, of the profile that its first byte names.
fn tell_next<R: Read, W: Write>(input: &mut R, output: &mut W) -> io::Result<bool> {
    let mut first = [0u8; 1];
    if read_full(input, &mut first) < 1 {
        return Ok(false);
    }
    match Profile::from(first[0] != 0) {
        Profile::Kernel => tell_bytes::<KERNEL_END, R, W>(input, output, Profile::Kernel),
        Profile::Userland => tell_bytes::<USERLAND_END, R, W>(input, output, Profile::Userland),
    }
}

fn main(rt: HostRuntime) -> io::Result<()> {
    let mut input = rt.stdin();
    let mut output = rt.stdout();
    for _ in 0..160 {
        if !tell_next(&mut input, &mut output)? {
            break;
        }
    }
    Ok(())
}
