// The row of a register that bears a key.
ghost use Rattle.std.specs.Prelude.{◌≡◌};
ghost use Rattle.registers.specs.Views.{register_of};
ghost use Rattle.reads.specs.Entries.{row_with};

use forms::Register;
use rules::Row;

// Halved by hand: rows are read from bytes where they stand, so there is no slice of them that a library could search.
pub fn find(register: &Register, key: u32) -> Option<Row>
    ensures { result ≡ row_with (register_of register.now) key }
{
    let mut lo = 0;
    let mut hi = register.row_count();
    while lo < hi {
        let mid = lo + (hi - lo) / 2;
        let k = register.row_key(mid);
        if k == key {
            return Some(register.row(mid));
        }
        if k < key {
            lo = mid + 1;
        } else {
            hi = mid;
        }
    }
    None
}
