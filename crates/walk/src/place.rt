// A place in two sheets that are walked together: a set of both is passed in both.
ghost use Rattle.std.specs.Prelude.{◌≡◌, ◌≤◌};
ghost use Rattle.rules.specs.Sheet.{max_sets};
ghost use Rattle.walk.specs.Walk.{passed};

use forms::Next;

// How many sets of each sheet are passed.
#[derive(Clone, Copy)]
pub struct Place {
    pub i: usize,
    pub j: usize,
}

// The place behind the next set.
pub fn advance(p: Place, next: Next) -> Place
    requires { (p.i ≤ max_sets) × (p.j ≤ max_sets) }
    ensures { result ≡ passed p next }
{
    match next {
        Next::First => Place { i: p.i + 1, j: p.j },
        Next::Second => Place { i: p.i, j: p.j + 1 },
        Next::Both => Place {
            i: p.i + 1,
            j: p.j + 1,
        },
    }
}
