// The visit desk: tags, the open set filled where it stands, and offered.
ghost use Rattle.std.specs.Prelude.{length};
ghost use Rattle.rules.specs.Refused.{enter_outcome, offer_outcome, tag_outcome};
ghost use Rattle.castorpedal.specs.Exported.{Kept, KeptEnter, KeptOffer};

use crate::answer::{CAnswer, answer};
use rules::OpenSet;

#[unsafe(no_mangle)]
pub extern "C" fn castorpedal_desk_enter(set: &mut OpenSet, kind: u8, tag: &[u8], value: u64) -> u32
    ensures { KeptEnter (enter_outcome set.old kind tag.now value) set.old result set.new }
{
    match merge::enter(set, kind, tag, value) {
        Ok(()) => 0,
        Err(x) => u32::from(x),
    }
}

#[unsafe(no_mangle)]
pub extern "C" fn castorpedal_desk_offer(
    set: &mut OpenSet,
    sheet: &[u8],
    epoch: u32,
    sen: u32,
    csn: u64,
    out: &mut [u8],
) -> CAnswer
    ensures { KeptOffer (offer_outcome set.old sheet.now epoch sen csn (length out.old)) set.old out.old result set.new out.new }
{
    answer(merge::offer(set, sheet, epoch, sen, csn, out))
}

#[unsafe(no_mangle)]
pub extern "C" fn castorpedal_desk_tag(key: u32, out: &mut [u8]) -> CAnswer
    ensures { Kept (tag_outcome key (length out.old)) out.old result out.new }
{
    answer(merge::tag(key, out))
}
