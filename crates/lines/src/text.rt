// The pieces of a report's text, each put into an output that the caller lends, behind the piece before it. The same writer
// counts, into an empty output, and writes, where there is room for all of the text.
ghost use Rattle.std.specs.Prelude.{◌≡◌, ◌++◌, ◌+◌, ◌^◌, ◌≤◌, ◌<◌, length};
ghost use Rattle.lines.specs.Text.{decimal_of, labelled, header_of, has_offset, line_of, chain_line_of, fault_of, faults_of};
ghost use Rattle.lines.specs.Text.{Wrote, writing, refusal_line_of, most_buffers, header_most, line_most, chain_most, faults_most, longest};
ghost use Rattle.lines.specs.Writer.{Put, at_start};
ghost use Rattle.tags.specs.Filling.{filling};
ghost use Rattle.tags.specs.Refusal.{refusal_number};
ghost use Rattle.tags.specs.Ending.{ending_value};

use tags::ending::Ending;
use tags::refusal::Refusal;

// No piece of a report of at most 100,000 buffers is longer: the header, the line of a buffer, the chain line, the last line.
const HEADER: usize = 14;

const LINE: usize = 27;

const CHAIN: usize = 25;

const FAULTS: usize = 14;

// An output, and the place in it where the next piece goes.
#[derive(Drop)]
pub struct Writer<'a> {
    pub output: &'a mut [u8],
    pub at: usize,
}

impl<'a> Writer<'a> {
    // Puts the piece. One that passes the output's end is put nowhere, so that an empty output only counts.
    #[tactic(auto, using(words::proofs::Std::written))]
    fn put(&mut self, piece: &[u8])
        requires { self.old.at + length piece.now < 2 ^ 64 }
        ensures { Put self.old self.new piece.now }
    {
        let end = self.at + piece.len();
        if end <= self.output.len() {
            self.output[self.at..end].copy_from_slice(piece);
        }
        self.at = end;
    }

    // Puts the number in decimal.
    fn put_decimal(&mut self, n: u64)
        requires { self.old.at + 20 < 2 ^ 64 }
        ensures put { Put self.old self.new (decimal_of n) }
        ensures short { self.new.at ≤ self.old.at + 20 }
    {
        let mut digits = [0u8; 20];
        let k = io::decimal(n, &mut digits);
        self.put(&digits[..k]);
    }

    // Puts the number in decimal, and the word behind it.
    fn put_field(&mut self, n: u64, word: &[u8])
        requires at_bound { self.old.at + 40 < 2 ^ 64 }
        requires word_len_bound { length word.now ≤ 20 }
        ensures put { Put self.old self.new (decimal_of n ++ word.now) }
        ensures short { self.new.at ≤ self.old.at + 40 }
    {
        self.put_decimal(n);
        self.put(word);
    }

    // Puts a line of a word and a number.
    fn put_labelled(&mut self, word: &[u8], n: u64)
        requires at_bound { self.old.at < 2 ^ 63 }
        requires word_len_bound { length word.now ≤ 20 }
        ensures { Put self.old self.new (labelled word.now n) }
    {
        self.put(word);
        self.put_field(n, b"\n");
    }

    // Puts the line of buffer i, by the number and the value of its verdict.
    fn put_verdict(&mut self, i: u64, number: u64, value: u64)
        requires { self.old.at < 2 ^ 61 }
        ensures { Put self.old self.new (line_of i number value) }
    {
        self.put_decimal(i);
        match number {
            0 => self.put(b" free\n"),
            1 => self.put(b" whole\n"),
            2 => self.put_labelled(b" allocated ", value),
            3 => self.put(b" cached\n"),
            _ => {
                self.put(b" fault ");
                if has_offset(number) {
                    self.put_field(number, b" ");
                    self.put_field(value, b"\n");
                } else {
                    self.put_field(number, b"\n");
                }
            }
        }
    }

    // The same, whose length is known: a verdict's number has two digits at most.
    #[tactic(auto, using(crate::proofs::Texts::line_short))]
    pub fn put_line(&mut self, i: usize, number: u32, value: u32)
        requires at_bound { self.old.at < 2 ^ 61 }
        requires i_lt_most_buffers { i < most_buffers }
        requires number_bound { number < 100 }
        ensures put { Put self.old self.new (line_of i number value) }
        ensures short { self.new.at ≤ self.old.at + line_most }
    {
        self.put_verdict(i as u64, u64::from(number), u64::from(value));
    }

    // Puts the first line, to the output's start.
    pub fn put_header(&mut self)
        ensures put { Put (at_start self.old) self.new header_of }
        ensures short { self.new.at ≤ header_most }
    {
        self.at = 0;
        self.put(b"heap report 1\n");
    }

    // Puts the chain line.
    pub fn put_chain(&mut self, met: usize, ending: Ending)
        requires at_bound { self.old.at < 2 ^ 61 }
        requires met_le_most_buffers { met ≤ most_buffers }
        requires ending_bound { ending_value ending < most_buffers }
        ensures put { Put self.old self.new (chain_line_of met ending) }
        ensures short { self.new.at ≤ self.old.at + chain_most }
    {
        self.put(b"chain ");
        self.put_decimal(met as u64);
        match ending {
            Ending::End => self.put(b" end\n"),
            Ending::Broken => self.put(b" broken\n"),
            Ending::Again(r) => self.put_labelled(b" again ", r as u64),
        }
    }

    // Puts the last line.
    #[tactic(auto, using(crate::proofs::Texts::faults_short))]
    pub fn put_faults(&mut self, faults: usize)
        requires at_bound { self.old.at < 2 ^ 61 }
        requires faults_le_most_buffers { faults ≤ most_buffers }
        ensures put { Put self.old self.new (faults_of faults) }
        ensures short { self.new.at ≤ self.old.at + faults_most }
    {
        self.put_labelled(b"faults ", faults as u64);
    }
}

// Whether the line of a fault ends with an offset.
#[tactic(auto, unfolding(crate::specs::Text::has_offset))]
fn has_offset(number: u64) -> bool
    ensures { result ≡ has_offset number }
{
    matches!(number, 25 | 26 | 28)
}

// No report of n buffers is longer.
pub fn longest(n: usize) -> usize
    requires { n ≤ most_buffers }
    ensures { result ≡ longest n }
{
    HEADER + n * LINE + CHAIN + FAULTS
}

// 1 for a verdict whose line is a fault line, else 0.
pub fn fault(number: u32) -> usize
    ensures is { result ≡ fault_of number }
    ensures small { result ≤ 1 }
{
    usize::from(number >= 20)
}

// Puts the line of a refusal, and answers its length.
fn put_refusal(number: u32, output: &mut [u8]) -> usize
    ensures { Wrote output.old 0 (refusal_line_of number) output.new result }
{
    let mut writer = Writer { output, at: 0 };
    writer.put_labelled(b"refused ", u64::from(number));
    writer.at
}

// Writes `refused N` and a line feed to the output's start and answers its length; or nothing, where the output is too short.
pub fn write_refusal(why: Refusal, output: &mut [u8]) -> Option<usize>
    ensures { filling result output.new
        ≡ writing (refusal_line_of (refusal_number why)) output.old }
{
    let number = why.number();
    let need = put_refusal(number, &mut output[..0]);
    if output.len() < need {
        return None;
    }
    Some(put_refusal(number, output))
}
