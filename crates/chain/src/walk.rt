// The chain of records from the head, marked in a lent area of one byte to a record: the lowest digit says that it is met.
ghost use Rattle.std.specs.Prelude.{◌≡◌, ◌+◌, ◌≤◌, length};
ghost use Rattle.geometry.specs.Sheet.{records_length};
ghost use Rattle.geometry.specs.Limits.{Lawful};
ghost use Rattle.chain.specs.Walk.{unmet, ending_at, WalkOf, WalkIn};

use area::record;
use geometry::sheet::Sheet;
use tags::ending::Ending;

// How many records a chain met, and how it ends.
#[derive(Clone, Copy, Debug, PartialEq, Eq)]
pub struct Walked {
    pub met: usize,
    pub ending: Ending,
}

// Where a walk stops: after how many records, and at which word.
#[derive(Clone, Copy, Debug, PartialEq, Eq)]
struct Stop {
    met: usize,
    word: u32,
}

impl Stop {
    // How the chain ends is told by the word: 0, no record's address, or that of a record already met.
    #[tactic(auto, unfolding(crate::specs::Walk::ending_at))]
    fn ending(self, g: Sheet) -> Ending
        ensures { result ≡ ending_at g self.word }
    {
        if self.word == 0 {
            return Ending::End;
        }
        match g.find_record(self.word) {
            Some(i) => Ending::Again(i),
            None => Ending::Broken,
        }
    }
}

// The chain from `word` (H2 to H5), where the marks say which records are met already, `met` of them. It calls itself from the
// next word (docs/DECISIONS.md, "Forms that were asked for"), with one record fewer that is not yet met. That word is read at the
// record's own address, which `word` is. No struct goes into that call by value, and two numbers come out of it, so that it is
// compiled to a loop.
#[tactic(auto, using(crate::proofs::Walking::record_found))]
fn walk(records: &[u8], g: &Sheet, word: u32, marks: &mut [u8], met: usize) -> Stop
    requires lawful { Lawful g.now }
    requires records_len { length records.now ≡ records_length g.now }
    requires marks_len { length marks.old ≡ g.now.count }
    requires left { met + unmet marks.old ≤ g.now.count }
    ensures { WalkOf g.now records.now word marks.old met result marks.new }
{
    if word == 0 {
        return Stop { met, word };
    }
    let Some(i) = g.find_record(word) else {
        return Stop { met, word };
    };
    if marks[i] % 2 != 0 {
        return Stop { met, word };
    }
    marks[i] += 1;
    let order = g.format.order;
    let next = record::read_at(order, records, g.record_base, word + record::NEXT as u32);
    walk(records, g, next, marks, met + 1)
}

// The chain from the head, in marks that have no record met yet.
pub(crate) fn walk_from(records: &[u8], g: Sheet, marks: &mut [u8]) -> Walked
    requires lawful { Lawful g }
    requires records_len { length records.now ≡ records_length g }
    requires marks_len { length marks.old ≡ g.count }
    ensures { WalkIn g records.now marks.old result marks.new }
{
    let stop = walk(records, &g, g.head, marks, 0);
    Walked {
        met: stop.met,
        ending: stop.ending(g),
    }
}
