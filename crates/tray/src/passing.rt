// Whether a post passes a seat.
ghost use Rattle.std.specs.Prelude.{◌≡◌};
ghost use Rattle.tray.specs.Passing.{passing};

use answer::{Answer, Verdict};

// By the judge's answer, its byte buffer and the bytes that were expected.
#[tactic(auto, unfolding(crate::specs::Passing::passing))]
pub fn passes(answer: Answer, buffer: &[u8], expected: &[u8]) -> bool
    ensures { result ≡ passing answer buffer.now expected.now }
{
    answer.number == Verdict::Complete.number()
        && answer.count as usize == expected.len()
        && buffer.starts_with(expected)
}
