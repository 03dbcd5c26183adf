// Reads an exposure record on standard input, refines its pose, and prints the answer, or `no` and the number of the refusal.
#![tactic(auto)]

use response::{record_room, respond_alone};
use streams::read_full;

fn main(rt: HostRuntime) {
    let mut room = record_room();
    answer(&rt, &mut room);
}

fn answer(rt: &HostRuntime, room: &mut [u8]) {
    let mut input = rt.stdin();
    let n = read_full(&mut input, room);
    tell(rt, &room[..n]);
}

// The longest text is shorter than 4,096 bytes.
fn tell(rt: &HostRuntime, record: &[u8]) {
    let mut text = [0u8; 4096];
    let n = respond_alone(record, &mut text);
    let _ = rt.write_all(&text[..n]);
}
