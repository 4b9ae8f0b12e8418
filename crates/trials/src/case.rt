// A case: its head, then its inputs.
ghost use Rattle.std.specs.Prelude.{◌+◌, ◌≤◌, length};
ghost use Rattle.cases.specs.Case.{case_head};

use cases::{
    FILLED, FIRST_INPUT, HEAD_LENGTH, LABEL_LENGTH, OPERATION, OUT_ROOM, SECOND_INPUT, SECOND_ROOM,
    THIRD_INPUT, run_close, run_join, run_notice, run_open, run_put,
};
use desk_cases::{run_enter, run_offer, run_tag};
use read_cases::{run_check, run_list};
use std::fmt;
use std::fmt::Write;
use std::fs::File;
use std::io::Read;
use words::Word;

// The longest inputs and buffers that a case may have.
const FIRST_MOST: usize = 32768;

const SECOND_MOST: usize = 16384;

const THIRD_MOST: usize = 512;

// Its head.
type Head = [u8; HEAD_LENGTH];

// A length or a room, from its place in the head, or most where it is more.
fn size(head: &Head, at: usize, most: usize) -> usize
    requires { at + 4 ≤ case_head }
    ensures { result ≤ most }
{
    most.min(u32::get(head, at) as usize)
}

// What is shown, written word by word: what cannot be written is let go, and the next word is tried.
#[derive(Drop)]
struct WordByWord<'a, P: Print> {
    rt: &'a P,
}

impl<P: Print> fmt::Write for WordByWord<'_, P> {
    fn write_str(&mut self, word: &str) -> fmt::Result {
        let _ = self.rt.write_all(word.as_bytes());
        Ok(())
    }
}

// A case as it was read.
#[derive(Clone, Copy)]
struct Case<'a> {
    head: &'a Head,
    first: &'a [u8],
    second: &'a [u8],
    third: &'a [u8],
}

impl Case<'_> {
    // The operation that the head names. Each number is met here alone, beside what it names.
    fn run(&self, rt: &impl Print, out: &mut [u8], verdicts: &mut [u8]) {
        let Case {
            head,
            first,
            second,
            third,
        } = *self;
        let mut shown = WordByWord { rt };
        let _ = match head[OPERATION] {
            1 => write!(shown, "{}", run_open(head, out)),
            2 => write!(shown, "{}", run_put(head, first, second, out)),
            3 => write!(shown, "{}", run_notice(head, first, out)),
            4 => write!(shown, "{}", run_join(first, second, out)),
            5 => write!(shown, "{}", run_close(first, second, out, verdicts)),
            6 => write!(shown, "{}", run_check(head, first, second, third)),
            7 => write!(shown, "{}", run_list(head, first, second, third)),
            8 => write!(shown, "{}", run_enter(head, first, second)),
            9 => write!(shown, "{}", run_offer(head, first, second, out)),
            _ => write!(shown, "{}", run_tag(head, out)),
        };
    }

    // Its buffers hold the same number in every byte. Without a heap they are arrays, of which a case takes a part.
    fn run_in_buffers(&self, rt: &impl Print) {
        let mut out = [FILLED; FIRST_MOST];
        let mut verdicts = [FILLED; THIRD_MOST];
        let n = size(self.head, OUT_ROOM, FIRST_MOST);
        let m = size(self.head, SECOND_ROOM, THIRD_MOST);
        self.run(rt, &mut out[..n], &mut verdicts[..m]);
    }
}

// The inputs follow the head. Where the file ends early, zeros stand for the rest.
fn run_inputs(rt: &impl Print, file: &mut File, head: &Head) {
    let mut first = [0u8; FIRST_MOST];
    let mut second = [0u8; SECOND_MOST];
    let mut third = [0u8; THIRD_MOST];
    let first = &mut first[..size(head, FIRST_INPUT, FIRST_MOST)];
    let second = &mut second[..size(head, SECOND_INPUT, SECOND_MOST)];
    let third = &mut third[..size(head, THIRD_INPUT, THIRD_MOST)];
    let _ = file.read_exact(first);
    let _ = file.read_exact(second);
    let _ = file.read_exact(third);
    Case {
        head,
        first,
        second,
        third,
    }
    .run_in_buffers(rt);
}

// The next case of the file: whether there was one. What cannot be written is not told, and the next write is tried.
pub fn run_case(rt: &impl Print, file: &mut File) -> bool {
    let mut head = [0u8; HEAD_LENGTH];
    if file.read_exact(&mut head).is_err() {
        return false;
    }
    let _ = rt.write_all(&head[..LABEL_LENGTH]);
    run_inputs(rt, file, &head);
    let _ = println!(rt;);
    true
}
