// An inspection of an image into a row of four findings: one more than the traced image has buffers, so that a row past the last
// is seen to stay.
ghost use Rattle.std.specs.Prelude.{◌≡◌, ◌<◌};
ghost use Rattle.sheet.specs.Lent.{seen};
ghost use Rattle.call_trace.specs.Findings.{seen_of};

use image::inspect;
use image::inspect::Finding;
use sheet::lent::Image;
use tags::format::Profile;
use tags::refusal::Refusal;
use tags::verdict::Verdict;

// What an inspection answers, and one row of its findings.
#[derive(Clone, Copy, Debug, PartialEq, Eq)]
pub struct Seen {
    pub answer: Result<u32, Refusal>,
    pub finding: Finding,
}

// Inspects an image, and answers with row k. The rows hold an index at first that no row of four can be given.
pub(crate) fn look(profile: Profile, image: &Image, magazines: &[u32], k: usize) -> Seen
    requires { k < 4 }
    ensures { result ≡ seen_of profile (seen image.now) magazines.now k }
{
    let mut rows = [Finding {
        index: 9,
        verdict: Verdict::Whole,
    }; 4];
    let answer = inspect::inspect(profile, image, magazines, &mut rows);
    Seen {
        answer,
        finding: rows[k],
    }
}
