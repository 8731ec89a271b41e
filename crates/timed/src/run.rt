// Runs of a repeated word, the highest of its bytes first, with numbers for enums.
ghost use Rattle.std.specs.Prelude.{◌≡◌, ◌%◌, eqb, length};
ghost use Rattle.words.specs.Word.{bytes_of};
ghost use Rattle.words.specs.declared.word.Order.TheVariants.{HighFirst};
ghost use Rattle.runs.specs.Run.{repeated, difference};
ghost use Rattle.timed.specs.Timed.{place_of, filled};

use runs::run;

// The number that says where two runs differ.
fn place(d: Option<usize>) -> u64
    ensures { result ≡ place_of d }
{
    match d {
        Some(o) => o as u64,
        None => u64::MAX,
    }
}

// The fill test.
pub fn timed_first_difference(s: &[u8], w: u32) -> u64
    ensures { result ≡ place_of (difference s.now
        (repeated (length s.now) (bytes_of HighFirst 4 w))) }
{
    place(run::first_difference(s, 0, s.len(), w.to_be_bytes()))
}

// The same, byte by byte.
pub fn timed_difference_by_bytes(s: &[u8], w: u32) -> u64
    ensures { result ≡ place_of (difference s.now
        (repeated (length s.now) (bytes_of HighFirst 4 w))) }
{
    place(run::difference_by_bytes(s, 0, s.len(), w.to_be_bytes()))
}

// The fill, where the length is a multiple of 8.
pub fn timed_fill(s: &mut [u8], w: u32) -> bool
    ensures value { result ≡ eqb (length s.old % 8) 0 }
    ensures s_after { s.new ≡ filled s.old (bytes_of HighFirst 4 w) }
{
    let len = s.len();
    if len % 8 != 0 {
        return false;
    }
    run::fill(s, 0, len, w.to_be_bytes());
    true
}
