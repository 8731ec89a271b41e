// Runs of a repeated word, the highest of its bytes first, with numbers for enums.
ghost use Rattle.std.specs.Prelude.{◌≡◌, ◌%◌, eqb, length};
ghost use Rattle.words.specs.Word.{bytes_of};
ghost use Rattle.words.specs.declared.word.Order.TheVariants.{HighFirst};
ghost use Rattle.runs.specs.Run.{repeated, difference};
ghost use Rattle.timed.specs.Timed.{place_of, filled};

use timed::run;

// The fill test.
#[unsafe(no_mangle)]
pub extern "C" fn timed_first_difference(s: &[u8], w: u32) -> u64
    ensures { result ≡ place_of (difference s.now
        (repeated (length s.now) (bytes_of HighFirst 4 w))) }
{
    run::timed_first_difference(s, w)
}

// The same, byte by byte.
#[unsafe(no_mangle)]
pub extern "C" fn timed_difference_by_bytes(s: &[u8], w: u32) -> u64
    ensures { result ≡ place_of (difference s.now
        (repeated (length s.now) (bytes_of HighFirst 4 w))) }
{
    run::timed_difference_by_bytes(s, w)
}

// The fill, where the length is a multiple of 8.
#[unsafe(no_mangle)]
pub extern "C" fn timed_fill(s: &mut [u8], w: u32) -> bool
    ensures value { result ≡ eqb (length s.old % 8) 0 }
    ensures s_after { s.new ≡ filled s.old (bytes_of HighFirst 4 w) }
{
    run::timed_fill(s, w)
}
