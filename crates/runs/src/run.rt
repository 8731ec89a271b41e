// Runs of bytes that repeat a word. The word is given as its four bytes: whoever calls has put them into their order, and nothing
// here knows of one.
ghost use Rattle.std.specs.Prelude.{◌≡◌, ◌+◌, ◌%◌, ◌≤◌, length};
ghost use Rattle.std.proofs.lemmas.List.Edits.{sets};
ghost use Rattle.words.specs.Word.{part};
ghost use Rattle.runs.specs.Run.{repeated, difference};

use crate::eight;

// Fills `len` bytes from an offset on with a word again and again, two words in a turn; a buffer is a multiple of 8 bytes.
#[tactic(auto, unfolding(crate::specs::Run::repeated))]
pub fn fill(s: &mut [u8], at: usize, len: usize, w: [u8; 4])
    requires len_in_bounds { at + len ≤ length s.old }
    requires len_value { len % 8 ≡ 0 }
    ensures { s.new ≡ sets s.old at (repeated len w) }
{
    let two = eight::twice(w);
    for k in 0..len / 8 {
        eight::write(s, at + k * 8, two);
    }
}

// The same for a run of whole words: if it is no multiple of 8 bytes, a word is left to be written behind the eights.
pub fn fill_words(s: &mut [u8], at: usize, len: usize, w: [u8; 4])
    requires len_in_bounds { at + len ≤ length s.old }
    requires len_value { len % 4 ≡ 0 }
    ensures { s.new ≡ sets s.old at (repeated len w) }
{
    let eights = len - len % 8;
    fill(s, at, eights, w);
    if eights < len {
        write_run(s, at + eights, &w);
    }
}

// The first place at which the four bytes at an offset differ from a word.
pub fn word_difference(s: &[u8], at: usize, w: [u8; 4]) -> Option<usize>
    requires { at + 4 ≤ length s.now }
    ensures { result ≡ difference (part s.now at 4) w }
{
    let here = [s[at], s[at + 1], s[at + 2], s[at + 3]];
    let x = u32::from_le_bytes(here) ^ u32::from_le_bytes(w);
    eight::lowest_byte(u64::from(x))
}

// The first place at which the eight bytes at an offset differ from a word twice.
pub fn two_words_difference(s: &[u8], at: usize, w: [u8; 4]) -> Option<usize>
    requires { at + 8 ≤ length s.now }
    ensures { result ≡ difference (part s.now at 8) (repeated 8 w) }
{
    eight::difference_at(s, at, eight::twice(w))
}

// The first place at which `len` bytes from an offset on differ from a word again and again. The longer case stands first,
// since the compiler then puts it first.
pub fn first_difference(s: &[u8], at: usize, len: usize, w: [u8; 4]) -> Option<usize>
    requires { at + len ≤ length s.now }
    ensures { result ≡ difference (part s.now at len) (repeated len w) }
{
    if 8 <= len {
        return long_difference(s, at, len, w);
    }
    difference_by_bytes(s, at, len, w)
}

// The same of eight bytes or more: the first eight by themselves, where most hurts are, then whole eights, and then the last few.
fn long_difference(s: &[u8], at: usize, len: usize, w: [u8; 4]) -> Option<usize>
    requires len_in_bounds { at + len ≤ length s.now }
    requires le_len { 8 ≤ len }
    ensures { result ≡ difference (part s.now at len) (repeated len w) }
{
    if let Some(o) = two_words_difference(s, at, w) {
        return Some(o);
    }
    let whole = len / 8 * 8;
    if let Some(o) = difference_by_eights(s, at, whole, w) {
        return Some(o);
    }
    let o = difference_by_bytes(s, at + whole, len - whole, w)?;
    Some(whole + o)
}

// The same of whole eights, as a buffer has them: blocks that are sure to repeat the word are passed over.
pub fn difference_by_eights(s: &[u8], at: usize, len: usize, w: [u8; 4]) -> Option<usize>
    requires len_in_bounds { at + len ≤ length s.now }
    requires le_len { 8 ≤ len }
    requires len_value { len % 8 ≡ 0 }
    ensures { result ≡ difference (part s.now at len) (repeated len w) }
{
    let two = eight::twice(w);
    for k in eight::alike_blocks(s, at, len, w) / 8..len / 8 {
        let i = k * 8;
        if let Some(o) = eight::difference_at(s, at + i, two) {
            return Some(i + o);
        }
    }
    None
}

// The same, one byte after the other.
pub fn difference_by_bytes(s: &[u8], at: usize, len: usize, w: [u8; 4]) -> Option<usize>
    requires { at + len ≤ length s.now }
    ensures { result ≡ difference (part s.now at len) (repeated len w) }
{
    for (i, b) in s[at..at + len].iter().enumerate() {
        if *b != w[i % 4] {
            return Some(i);
        }
    }
    None
}

// Writes a run of bytes from an offset on.
pub fn write_run(s: &mut [u8], at: usize, run: &[u8])
    requires { at + length run.now ≤ length s.old }
    ensures { s.new ≡ sets s.old at run.now }
{
    s[at..at + run.len()].copy_from_slice(run);
}
