// Little-endian words of 16, 32 and 64 bits in lent bytes, read and written at an offset, and a run of bytes copied.
#![tactic(auto, using(crate::proofs::Stores::stores), unfolding(crate::specs::Words::word))]

ghost use Rattle.std.specs.Prelude.{◌≡◌, ℕ, ◌+◌, ◌≤◌, length};
ghost use Rattle.words.specs.Words.{le, word, part, stored};

// A number that stands in bytes, its lowest byte first. The bytes are a whole form's: a slice cut for each word would be no plainer than a place.
// What is proved of words, for every width, stands in specs/WordLaws.
pub trait Word {
    // In how many bytes, and which number a value is.
    ghost width: { ℕ };

    ghost number: { Self → ℕ };

    // The word whose bytes start at a place.
    fn get(s: &[u8], at: usize) -> Self
        requires { at + width ≤ length s.now }
        ensures { number result ≡ word width s.now at };

    // The word's bytes go to out, from a place on.
    fn put(self, out: &mut [u8], at: usize)
        requires { at + width ≤ length out.old }
        ensures { out.new ≡ stored out.old at (le width (number self)) };
}

impl Word for u16 {
    ghost width = { 2 };

    ghost number = { λ x. x };

    fn get(s: &[u8], at: usize) -> u16 {
        u16::from_le_bytes(s[at..at + 2].try_into().unwrap())
    }

    fn put(self, out: &mut [u8], at: usize) {
        out[at..at + 2].copy_from_slice(&self.to_le_bytes());
    }
}

impl Word for u32 {
    ghost width = { 4 };

    ghost number = { λ x. x };

    fn get(s: &[u8], at: usize) -> u32 {
        u32::from_le_bytes(s[at..at + 4].try_into().unwrap())
    }

    fn put(self, out: &mut [u8], at: usize) {
        out[at..at + 4].copy_from_slice(&self.to_le_bytes());
    }
}

impl Word for u64 {
    ghost width = { 8 };

    ghost number = { λ x. x };

    fn get(s: &[u8], at: usize) -> u64 {
        u64::from_le_bytes(s[at..at + 8].try_into().unwrap())
    }

    fn put(self, out: &mut [u8], at: usize) {
        out[at..at + 8].copy_from_slice(&self.to_le_bytes());
    }
}

// The n bytes of src from `from` on go to out, from `at` on: one name for what report and open_sets would write out with both ranges.
pub fn copy(src: &[u8], from: usize, n: usize, out: &mut [u8], at: usize)
    requires { (from + n ≤ length src.now) × (at + n ≤ length out.old) }
    ensures { out.new ≡ stored out.old at (part src.now from n) }
{
    out[at..at + n].copy_from_slice(&src[from..from + n]);
}
