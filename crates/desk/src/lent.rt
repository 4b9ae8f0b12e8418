// The open set filled where it stands: it is lent, and what the by-value work made of it is stored.
ghost use Rattle.std.specs.Prelude.{length};
ghost use Rattle.rules.specs.Refused.{enter_outcome, offer_outcome};
ghost use Rattle.rules.specs.Promises.{EnterPromise, OfferPromise};

use crate::entering::entered;
use crate::offering::offered;
use rules::{OpenSet, Refusal};

// C hands the kind as a byte, which may be no kind's.
pub fn enter(set: &mut OpenSet, kind: u8, tag: &[u8], value: u64) -> Result<(), Refusal>
    ensures { EnterPromise (enter_outcome set.old kind tag.now value) set.old result set.new }
{
    let e = entered(*set, kind, tag, value);
    *set = e.after;
    e.answer
}

pub fn offer(
    set: &mut OpenSet,
    sheet: &[u8],
    epoch: u32,
    sen: u32,
    csn: u64,
    out: &mut [u8],
) -> Result<usize, Refusal>
    ensures { OfferPromise (offer_outcome set.old sheet.now epoch sen csn (length out.old)) set.old out.old result set.new out.new }
{
    let o = offered(*set, sheet, epoch, sen, csn, out);
    *set = o.after;
    o.answer
}
