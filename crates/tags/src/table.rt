// Damm's table, and a step by it.
ghost use Rattle.std.specs.Prelude.{◌≡◌, ◌<◌};
ghost use Rattle.rules.specs.Tag.{step};

// H. M. Damm, 2004: the row is the interim digit, the column the digit that comes next.
const DAMM: [[u8; 10]; 10] = [
    [0, 3, 1, 7, 5, 9, 8, 6, 4, 2],
    [7, 0, 9, 2, 1, 5, 4, 8, 6, 3],
    [4, 2, 0, 6, 8, 7, 1, 3, 5, 9],
    [1, 7, 5, 0, 9, 8, 3, 4, 2, 6],
    [6, 1, 2, 3, 0, 4, 5, 9, 7, 8],
    [3, 6, 7, 4, 2, 0, 9, 5, 8, 1],
    [5, 8, 6, 9, 7, 2, 0, 1, 3, 4],
    [8, 9, 4, 5, 3, 6, 2, 0, 1, 7],
    [9, 4, 3, 8, 6, 1, 7, 2, 0, 5],
    [2, 5, 8, 1, 4, 3, 6, 7, 9, 0],
];

// The interim digit after one more digit.
#[tactic(auto, unfolding(rules::specs::Tag::step, rules::specs::Tag::damm))]
pub fn next_digit(interim: u8, digit: u8) -> u8
    requires { (interim < 10) × (digit < 10) }
    ensures { result ≡ step interim digit }
{
    DAMM[interim as usize][digit as usize]
}
