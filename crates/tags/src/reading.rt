// A tag read: its key, if it is a station's.
ghost use Rattle.std.specs.Prelude.{◌≡◌};
ghost use Rattle.rules.specs.Lists.{all};
ghost use Rattle.rules.specs.Tag.{is_digit, key_of_tag};

use crate::table::next_digit;
use rules::TAG_ROOM;

// Whether every byte is an ASCII digit, 0 to 9.
fn are_digits(tag: &[u8]) -> bool
    ensures { result ≡ all is_digit tag.now }
{
    tag.iter().all(u8::is_ascii_digit)
}

// Ten digits make the key, and with the eleventh they lead to 0.
pub fn read_tag(tag: &[u8]) -> Option<u32>
    ensures { result ≡ key_of_tag tag.now }
{
    if tag.len() != TAG_ROOM || !are_digits(tag) {
        return None;
    }
    let mut interim: u8 = 0;
    let mut key: u64 = 0;
    for b in &tag[..10] {
        let digit = *b - b'0';
        interim = next_digit(interim, digit);
        key = key * 10 + u64::from(digit);
    }
    let check = tag[10] - b'0';
    if next_digit(interim, check) != 0 || key == 0 {
        return None;
    }
    u32::try_from(key).ok()
}
