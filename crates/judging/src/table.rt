// A table: for each set of a sheet a key of its own, if there is one; behind the last set there is none. A key is at least 1, so 0 stands
// for none, and this file alone reads and writes it so. An array of options would be twice as long, and C's memset would clear it.
ghost use Rattle.std.specs.Prelude.{◌≡◌, ◌<◌, get_or, set, replicate, length, None};
ghost use Rattle.rules.specs.Sheet.{max_sets};

use rules::MAX_SETS;

#[derive(Clone, Copy)]
pub struct Table {
    keys: [u32; MAX_SETS],
    ghost places: { length keys ≡ max_sets },
}

impl Table {
    ghost use Rattle.judging.specs.Tables.{IsKey, keys_of};

    // A table with no key.
    pub fn empty() -> Table
        ensures { keys_of result ≡ replicate max_sets None }
    {
        Table {
            keys: [0; MAX_SETS],
        }
    }

    // The key at place i.
    pub fn key(&self, i: usize) -> Option<u32>
        requires { i < max_sets }
        ensures { result ≡ get_or (keys_of self.now) i None }
    {
        let number = self.keys[i];
        (number != 0).then_some(number)
    }

    // Place i has the key from now on.
    pub fn put(&mut self, i: usize, key: Option<u32>)
        requires place { i < max_sets }
        requires key { IsKey key }
        ensures { keys_of self.new ≡ set (keys_of self.old) i key }
    {
        self.keys[i] = key.unwrap_or(0);
    }
}
