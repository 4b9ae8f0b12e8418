// The verdicts, from the two tables.
ghost use Rattle.std.specs.Prelude.{◌≡◌, ◌≤◌, length};
ghost use Rattle.rules.specs.Lists.{flat};
ghost use Rattle.rules.specs.Closing.{verdicts};
ghost use Rattle.rules.specs.Refused.{verdict_room, verdict_bytes};
ghost use Rattle.rules.specs.Promises.{over};
ghost use Rattle.registers.specs.Views.{register_of};
ghost use Rattle.sheets.specs.Views.{sheet_of};
ghost use Rattle.closing.specs.Outcome.{verdict_by};

use forms::put_verdict;
use judging::Judged;
use rules::Verdict;

// The verdict on a set whose first key found wrong and first key lost are these.
fn verdict_of(wrong: Option<u32>, lost: Option<u32>) -> Verdict
    ensures { result ≡ verdict_by wrong lost }
{
    match (wrong, lost) {
        (Some(key), _) => Verdict::Unfit(key),
        (None, Some(key)) => Verdict::Lost(key),
        (None, None) => Verdict::Commit,
    }
}

#[tactic(auto, using(sheets::specs::SheetSizes::few_sets))]
pub fn put_verdicts(judged: &Judged, out: &mut [u8])
    requires { verdict_room ≤ length out.old }
    ensures { out.new ≡ over out.old (flat verdict_bytes (verdicts (register_of judged.now.register) (sheet_of judged.now.sheet))) }
{
    for i in 0..judged.sheet.set_count() {
        put_verdict(out, i, verdict_of(judged.wrong.key(i), judged.lost.key(i)));
    }
}
