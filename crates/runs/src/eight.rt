// Eights of bytes: a word twice, and a run that is written or compared eight bytes at a time.
ghost use Rattle.std.specs.Prelude.{◌≡◌, ◌+◌, ◌≤◌, length};
ghost use Rattle.std.proofs.lemmas.List.Edits.{sets};
ghost use Rattle.words.specs.Word.{part};
ghost use Rattle.runs.specs.Run.{repeated, difference, lowest_byte, Alike};

// A word twice.
#[tactic(auto, unfolding(crate::specs::Run::repeated))]
pub(crate) fn twice(w: [u8; 4]) -> [u8; 8]
    ensures { result ≡ repeated 8 w }
{
    [w[0], w[1], w[2], w[3], w[0], w[1], w[2], w[3]]
}

// Writes eight bytes from an offset on. Byte by byte, which becomes one store: `copy_from_slice`, tried and slower, first compares
// the addresses, so that the fill is not made of vectors (five times as long for 4,096 bytes).
pub(crate) fn write(s: &mut [u8], at: usize, eight: [u8; 8])
    requires { at + 8 ≤ length s.old }
    ensures { s.new ≡ sets s.old at eight }
{
    for j in 0..8 {
        s[at + j] = eight[j];
    }
}

// The lowest byte of a number that is not 0.
pub(crate) fn lowest_byte(x: u64) -> Option<usize>
    ensures { result ≡ lowest_byte x }
{
    if x == 0 {
        return None;
    }
    Some((x.trailing_zeros() / 8) as usize)
}

// A number that has a byte other than 0 where the eight bytes at an offset differ from `eight`, the lowest byte for the first.
fn unlike(s: &[u8], at: usize, eight: [u8; 8]) -> u64
    requires { at + 8 ≤ length s.now }
    ensures same { result ≡ 0 → part s.now at 8 ≡ eight }
    ensures place { lowest_byte result ≡ difference (part s.now at 8) eight }
{
    let here = [
        s[at],
        s[at + 1],
        s[at + 2],
        s[at + 3],
        s[at + 4],
        s[at + 5],
        s[at + 6],
        s[at + 7],
    ];
    u64::from_le_bytes(here) ^ u64::from_le_bytes(eight)
}

// The first place at which the eight bytes at an offset differ from `eight`.
pub(crate) fn difference_at(s: &[u8], at: usize, eight: [u8; 8]) -> Option<usize>
    requires { at + 8 ≤ length s.now }
    ensures { result ≡ difference (part s.now at 8) eight }
{
    lowest_byte(unlike(s, at, eight))
}

// How many bytes of a run are sure to repeat the word: whole blocks of 32 bytes, all or none. The first eight, where most hurts are,
// are tested before the blocks. The blocks are tested once, at the end: differences are gathered side by side with no branch between,
// which the compiler turns into vectors. The blocks begin where the run does, so that loads keep its alignment. The loop stays a
// `while`: as a `for`, tried and slower (77 ns for 4,096 bytes; 82 over counted blocks or `as_chunks`, 109 with `step_by`).
pub(crate) fn alike_blocks(s: &[u8], at: usize, len: usize, w: [u8; 4]) -> usize
    requires len_in_bounds { at + len ≤ length s.now }
    requires le_len { 8 ≤ len }
    ensures { Alike s.now at len w result }
{
    let eight = twice(w);
    if unlike(s, at, eight) != 0 {
        return 0;
    }
    let whole = len / 32 * 32;
    let mut a = 0;
    let mut b = 0;
    let mut c = 0;
    let mut d = 0;
    let mut i = 0;
    while i < whole {
        a |= unlike(s, at + i, eight);
        b |= unlike(s, at + i + 8, eight);
        c |= unlike(s, at + i + 16, eight);
        d |= unlike(s, at + i + 24, eight);
        i += 32;
    }
    if a | b | c | d == 0 {
        return i;
    }
    0
}
