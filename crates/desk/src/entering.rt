// Entering a record, by value.
ghost use Rattle.rules.specs.Refused.{enter_outcome};
ghost use Rattle.rules.specs.Promises.{EnterPromise};
ghost use Rattle.desk.specs.Entries.{Allows};

use examine::kind_and_value_ok;
use open_sets::{has_key, is_full, is_open_set, with_record};
use rules::{OpenSet, Record, Refusal};
use tags::read_tag;

// What entering answers, and the open set after it.
#[derive(Clone, Copy)]
pub struct Entering {
    pub answer: Result<(), Refusal>,
    pub after: OpenSet,
}

// The key of a record that may be entered, or the first refusal, in their order.
fn admit(set: OpenSet, kind: u8, tag: &[u8], value: u64) -> Result<u32, Refusal>
    ensures { Allows set kind tag.now value result }
{
    if !is_open_set(set) || !kind_and_value_ok(kind, value) {
        return Err(Refusal::OfferIllFormed);
    }
    let Some(key) = read_tag(tag) else {
        return Err(Refusal::BadTag);
    };
    if has_key(set, key) {
        return Err(Refusal::KeyEntered);
    }
    if is_full(set) {
        return Err(Refusal::NinthRecord);
    }
    Ok(key)
}

// C hands the kind as a byte, which may be no kind's.
pub fn entered(set: OpenSet, kind: u8, tag: &[u8], value: u64) -> Entering
    ensures { EnterPromise (enter_outcome set kind tag.now value) set result.answer result.after }
{
    match admit(set, kind, tag, value) {
        Ok(key) => Entering {
            answer: Ok(()),
            after: with_record(set, Record { kind, key, value }),
        },
        Err(x) => Entering {
            answer: Err(x),
            after: set,
        },
    }
}
