// The tag of a key, written.
ghost use Rattle.std.specs.Prelude.{◌≡◌, ◌≤◌, length};
ghost use Rattle.words.specs.Words.{stored};
ghost use Rattle.rules.specs.Tag.{tag_room, tag_of};
ghost use Rattle.rules.specs.Refused.{tag_outcome};
ghost use Rattle.rules.specs.Promises.{Promise};

use crate::table::next_digit;
use rules::{Refusal, TAG_ROOM};

// The tag of a key, at the start of a buffer: ten digits, the highest first, and the check digit.
fn put_tag(key: u32, out: &mut [u8])
    requires { tag_room ≤ length out.old }
    ensures { out.new ≡ stored out.old 0 (tag_of key) }
{
    let mut weight: u64 = 10000000000;
    let mut interim: u8 = 0;
    for i in 0..10 {
        weight /= 10;
        let digit = (u64::from(key) / weight % 10) as u8;
        out[i] = b'0' + digit;
        interim = next_digit(interim, digit);
    }
    out[10] = b'0' + interim;
}

pub fn tag(key: u32, out: &mut [u8]) -> Result<usize, Refusal>
    ensures { Promise (tag_outcome key (length out.old)) out.old result out.new }
{
    if key == 0 {
        return Err(Refusal::BadTag);
    }
    if out.len() < TAG_ROOM {
        return Err(Refusal::BufferShort);
    }
    put_tag(key, out);
    Ok(TAG_ROOM)
}
