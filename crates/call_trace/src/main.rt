// The calls, traced: a heap of three buffers of 24 bytes is laid out and used, refused, asked and hurt, under the kernel's profile and
// then under userland's, each first with the high byte first and then with the low byte first, and each call's answer is a line on
// standard output. What it writes is held to the text that the second program makes of the same calls.
//
// A line is the call's name and its answer, words and decimal numbers behind one space each, and a line feed:
//
//     kernel, userland        high or low: the format of the lines that follow
//     lay_out, store, free    done
//     allocate                the buffer's address
//     find_client             where the buffer stands in the heap, where in it the client's bytes start, and how many they are
//     show                    the client's bytes, each as a number; none where they are refused
//     find_latest             row or record, and its index
//     latest                  the bytes of the log's row or of the record; none where it is refused
//     inspect                 the number of buffers, and then a line for each place of a lent row of four findings; with an empty
//                             magazine list, but for those of `list` and the last two of `list_image`:
//     finding                 index, verdict's number, and its size or offset
//     byte, word              the number at an address, or none
//
// A call that is refused answers `refused N D`, with the refusal's number and its detail.
// A write that fails ends the program with its error.
#![tactic(auto)]

ghost use Rattle.std.specs.Prelude.{◌≤◌};

use crate::calls::{HEAP, Log, RECORDS, Trace, TracedImage};
use area::record;
use chunks::chunk::Grant;
use chunks::header;
use sheet::fields;
use std::io;
use std::io::Write;
use tags::format::{Format, Profile};

// The calls, each with its line.
mod calls;

// An inspection of an image into a row of four findings.
mod findings;

// The lines of the calls' answers.
mod lines;

// The buffers stand 40 bytes apart.
const FIRST: u32 = HEAP;

const SECOND: u32 = HEAP + 40;

const THIRD: u32 = HEAP + 80;

// The first buffer is granted with a coded size of 20 bytes, so its guard byte stands behind them.
const GUARD: usize = 20;

// R1 of the first buffer, which holds the code of that size.
const CODE: usize = 28;

// The request of a coded size, which in userland counts the header too.
#[tactic(auto, unfolding(chunks::specs::Header::header_size))]
fn coded(p: Profile, size: u32) -> Grant
    requires { 8 ≤ size }
{
    Grant::Sized(size - header::size(p) as u32)
}

// An image that is none yet, and the image that is laid out.
fn begin<W: Write>(trace: &mut Trace<W>) -> io::Result<()> {
    trace.inspect(&[])?;
    trace.lay_out()?;
    trace.inspect(&[])
}

// A sized grant, a whole one, and two of sizes that no request has.
fn grant<W: Write>(trace: &mut Trace<W>) -> io::Result<()> {
    trace.allocate(coded(trace.image.format.profile, 20), 100, 7)?;
    trace.allocate(Grant::Whole, 200, 8)?;
    trace.allocate(Grant::Sized(25), 250, 9)?;
    trace.allocate(Grant::Sized(0), 250, 9)
}

// Stores up to a client's last byte and past it, and what the clients have then.
fn store<W: Write>(trace: &mut Trace<W>) -> io::Result<()> {
    trace.store(FIRST, 0, b"relay")?;
    trace.store(FIRST, 10, b"end")?;
    trace.store(FIRST, 18, b"end")?;
    trace.store(SECOND, 20, b"tail")?;
    trace.store(SECOND, 24, b"")?;
    trace.show(FIRST)?;
    trace.show(SECOND)
}

// Nobody allocates or frees, whether another thread could or not.
fn refuse_nobody<W: Write>(trace: &mut Trace<W>) -> io::Result<()> {
    trace.allocate(Grant::Sized(1), 260, 0)?;
    trace.allocate(Grant::Sized(0), 260, 0)?;
    trace.free(SECOND, Grant::Whole, 260, 0)?;
    trace.free(SECOND + 4, Grant::Whole, 260, 0)
}

// The last buffer is granted in its full size, and there is no room for one more.
fn fill<W: Write>(trace: &mut Trace<W>) -> io::Result<()> {
    trace.allocate(coded(trace.image.format.profile, 24), 300, 7)?;
    trace.allocate(Grant::Whole, 400, 9)?;
    trace.allocate(Grant::Sized(17), 400, 9)?;
    trace.inspect(&[])
}

// Frees with other grants, the coded size among them, and with the right one, and once more.
fn free<W: Write>(trace: &mut Trace<W>) -> io::Result<()> {
    trace.free(FIRST, Grant::Whole, 500, 7)?;
    trace.free(FIRST, Grant::Sized(28), 500, 7)?;
    trace.free(THIRD, Grant::Sized(24), 500, 7)?;
    trace.free(SECOND, Grant::Whole, 500, 8)?;
    trace.free(SECOND, Grant::Whole, 600, 8)
}

// The second buffer is listed, alone, twice, and beside the first, which is allocated.
fn list<W: Write>(trace: &mut Trace<W>) -> io::Result<()> {
    trace.inspect(&[SECOND])?;
    trace.inspect(&[SECOND, SECOND])?;
    trace.inspect(&[SECOND, FIRST])
}

// The second buffer is free: in lists while it is on the chain, and then while the chain is empty; and then an address between two
// buffers is listed, and more words than there are buffers. Its record is the head's.
fn list_image<W: Write>(trace: &mut Trace<W>) -> io::Result<()> {
    list(trace)?;
    fields::set_head(&mut trace.image.sheet, 0);
    trace.inspect(&[])?;
    list(trace)?;
    trace.inspect(&[SECOND, SECOND + 4])?;
    trace.inspect(&[SECOND, FIRST, THIRD, SECOND])?;
    let head = second_record(trace.image.format);
    fields::set_head(&mut trace.image.sheet, head);
    Ok(())
}

// What a freed buffer and an address between buffers show.
fn show_freed<W: Write>(trace: &mut Trace<W>) -> io::Result<()> {
    trace.show(SECOND)?;
    trace.show(THIRD + 4)?;
    trace.inspect(&[])
}

// The latest transactions: at time 600 a row of buffer 0 and the record of buffer 1; at time 120 the other row, since the uptime
// 150 is then nearly 2^32 old.
fn ask<W: Write>(trace: &mut Trace<W>) -> io::Result<()> {
    trace.latest(0, 600)?;
    trace.latest(1, 600)?;
    trace.latest(0, 120)?;
    trace.latest(3, 600)
}

// Bytes and words inside the areas, at their ends, and past them.
fn read<W: Write>(trace: &mut Trace<W>) -> io::Result<()> {
    for address in [FIRST + 20, HEAP + 119, HEAP + 120, HEAP - 1] {
        trace.read_byte(address)?;
    }
    for address in [FIRST, FIRST + 4, THIRD + 24, HEAP + 116, HEAP + 117] {
        trace.read_heap(address)?;
    }
    trace.read_records(RECORDS + 104)
}

// What is found and shown once a byte of the first buffer is gone, what is refused then, and what is not.
fn use_hurt<W: Write>(trace: &mut Trace<W>) -> io::Result<()> {
    trace.inspect(&[])?;
    trace.show(FIRST)?;
    trace.store(FIRST, 0, b"late")?;
    trace.free(FIRST, coded(trace.image.format.profile, 20), 700, 7)?;
    trace.allocate(Grant::Sized(1), 800, 7)?;
    trace.inspect(&[])
}

// The image is hurt at the guard byte, and then, with the guard byte back in its place, at the fourth byte of the first buffer, which
// is the header's in userland.
fn hurt<W: Write>(trace: &mut Trace<W>) -> io::Result<()> {
    trace.image.heap[GUARD] = 0;
    use_hurt(trace)?;
    trace.image.heap[GUARD] = 0xbb;
    trace.image.heap[3] = 0x55;
    use_hurt(trace)
}

// The image is hurt at the size code: a wrong remainder, the code of size zero, and the least one above the buffer's size.
fn hurt_codes<W: Write>(trace: &mut Trace<W>) -> io::Result<()> {
    let order = trace.image.format.order;
    for code in [251 * 20 + 2, 1, 251 * 25 + 1] {
        order.write_u32(&mut trace.image.heap, CODE, code);
        use_hurt(trace)?;
    }
    Ok(())
}

// The address of the second buffer's record.
#[tactic(auto, unfolding(area::specs::Record::record_size))]
fn second_record(f: Format) -> u32 {
    RECORDS + record::size(f.profile) as u32
}

// Three rows of the log: record 0 at 150, record 1 at 450, and record 0 at 110.
fn log(f: Format) -> Log {
    let second = second_record(f);
    let words = [RECORDS, 150, 7, 1, second, 450, 8, 2, RECORDS, 110, 9, 1];
    let mut log = [0u8; 3 * history::ROW];
    for k in 0..12 {
        f.order.write_u32(&mut log, 4 * k, words[k]);
    }
    log
}

// All of it in a format, with the bytes of three records: the image is laid out and used, listed, asked and hurt.
fn trace<W: Write>(output: &mut W, format: Format, records: &mut [u8]) -> io::Result<()> {
    let image = TracedImage {
        format,
        sheet: [0u8; fields::LENGTH],
        heap: [0u8; 3 * 40],
        records,
    };
    let mut trace = Trace {
        output,
        image,
        log: log(format),
    };
    begin(&mut trace)?;
    grant(&mut trace)?;
    store(&mut trace)?;
    refuse_nobody(&mut trace)?;
    fill(&mut trace)?;
    free(&mut trace)?;
    list_image(&mut trace)?;
    show_freed(&mut trace)?;
    ask(&mut trace)?;
    read(&mut trace)?;
    hurt(&mut trace)?;
    hurt_codes(&mut trace)
}

// The kernel's records have 96 bytes each, and userland's 100.
fn main(rt: HostRuntime) -> io::Result<()> {
    let mut output = rt.stdout();
    writeln!(output, "kernel high")?;
    trace(&mut output, Format::of(false, false), &mut [0u8; 3 * 96])?;
    writeln!(output, "kernel low")?;
    trace(&mut output, Format::of(false, true), &mut [0u8; 3 * 96])?;
    writeln!(output, "userland high")?;
    trace(&mut output, Format::of(true, false), &mut [0u8; 3 * 100])?;
    writeln!(output, "userland low")?;
    trace(&mut output, Format::of(true, true), &mut [0u8; 3 * 100])
}
