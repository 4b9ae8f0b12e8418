// The verdicts of a closing, 5 bytes a set: written and read.
ghost use Rattle.std.specs.Prelude.{◌≡◌, ℕ, ◌+◌, ◌≤◌, ◌<◌, length};
ghost use Rattle.rules.specs.Sheet.{max_sets};
ghost use Rattle.forms.specs.VerdictForm.{verdicts_length, verdict_of, verdicts_in, verdict_at};
ghost use Rattle.forms.specs.VerdictWriting.{VerdictAdded};

use rules::Verdict;
use words::Word;

// How long a verdict is: a code byte and a key.
const VERDICT: usize = 5;

// The verdict of set i, its code and its key, goes behind those of the sets before it.
pub fn put_verdict(out: &mut [u8], i: usize, verdict: Verdict)
    requires { verdicts_length (i + 1) ≤ length out.old }
    ensures { VerdictAdded i verdict out.old out.new }
{
    let at = VERDICT * i;
    out[at] = verdict.code();
    verdict.key().put(out, at + 1);
}

// A verdict from its code and key: every code is read, so there is nothing that a TryFrom would refuse.
#[tactic(auto, unfolding(crate::specs::VerdictForm::verdict_of))]
fn verdict_of(code: u8, key: u32) -> Verdict
    ensures { result ≡ verdict_of code key }
{
    match code {
        1 => Verdict::Commit,
        2 => Verdict::Lost(key),
        _ => Verdict::Unfit(key),
    }
}

// The verdict of set i, however many verdicts the bytes hold.
pub fn set_verdict(b: &[u8], i: usize) -> Verdict
    requires { verdicts_length (i + 1) ≤ length b.now }
    ensures { (n : ℕ) → i < n → result ≡ verdict_at (verdicts_in n b.now 0) i }
{
    let at = VERDICT * i;
    verdict_of(b[at], u32::get(b, at + 1))
}

// The length of n verdicts.
pub fn verdicts_length(n: usize) -> usize
    requires { n ≤ max_sets }
    ensures { result ≡ verdicts_length n }
{
    VERDICT * n
}
