// The visit desk's open set, as C sees it. Which structs are open sets is said in specs/OpenSet.antt.

// `count` records of 16 bytes as in a sheet's bodies, in key order, and zero bytes behind them.
#[repr(C)]
#[derive(Clone, Copy)]
pub struct OpenSet {
    pub count: u32,
    pub records: [u8; 128],
}
