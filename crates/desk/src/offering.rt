// Offering the open set, by value: its records are put.
ghost use Rattle.std.specs.Prelude.{◌≡◌, length};
ghost use Rattle.rules.specs.Refused.{offer_outcome};
ghost use Rattle.rules.specs.Promises.{OfferPromise};
ghost use Rattle.laws.specs.Meets.{emptied};

use gather::put;
use open_sets::{empty_set, offered_length};
use rules::{OpenSet, Refusal};

// What offering answers, and the open set after it.
#[derive(Clone, Copy)]
pub struct Offering {
    pub answer: Result<usize, Refusal>,
    pub after: OpenSet,
}

// The open set that an answer leaves: empty, unless it is a refusal.
fn left_by(answer: Result<usize, Refusal>, set: OpenSet) -> OpenSet
    ensures { result ≡ emptied answer set }
{
    match answer {
        Ok(_) => empty_set(),
        Err(_) => set,
    }
}

#[tactic(auto, using(crate::proofs::OfferLaws::offered_within))]
pub fn offered(
    set: OpenSet,
    sheet: &[u8],
    epoch: u32,
    sen: u32,
    csn: u64,
    out: &mut [u8],
) -> Offering
    ensures { OfferPromise (offer_outcome set sheet.now epoch sen csn (length out.old)) set out.old result.answer result.after out.new }
{
    let n = offered_length(set);
    let answer = put(sheet, epoch, sen, csn, &set.records[..n], out);
    Offering {
        answer,
        after: left_by(answer, set),
    }
}
