// Replays stored records and compares each text with the reference's: says of each file how many came out as expected, and shows each
// difference in full.
//
// A file holds entries: the length of a record in four bytes, low byte first, the record, the length of the expected text in four bytes, and
// the text.
#![tactic(auto)]

mod entries; // entries.rt: the entries of a file
mod trial; // trial.rt: one record

use response::record_room;
use streams::{Tally, Told, read_file};

// The files in their order, a few names at a time.
const FILES: [&str; 4] = [
    "records-01.bin records-02.bin records-03.bin records-04.bin records-05.bin records-06.bin",
    "records-07.bin records-08.bin records-09.bin records-10.bin records-11.bin records-12.bin",
    "records-13.bin records-14.bin records-15.bin records-16.bin records-17.bin records-18.bin",
    "records-19.bin records-20.bin records-21.bin records-22.bin records-23.bin",
];

fn main(rt: HostRuntime) {
    for names in FILES {
        for name in names.split(' ') {
            run_file(&rt, name);
        }
    }
    too_long(&rt);
}

// The name of a file, and what became of its entries, or why it is not to be had.
// Stays (form of 01): one function for this and `vectors` would be public and ask of its callers that its closure may be called; no public function asks anything.
fn run_file(rt: &HostRuntime, name: &str) {
    let _ = print!(rt; "{name}: ");
    let mut room = [0u8; 65536];
    let told = read_file(rt, name, &mut room).map(|n| entries::tally(rt, &room[..n]));
    let _ = println!(rt; "{}", Told(told));
}

// A record of one byte too many is too long for a file.
fn too_long(rt: &HostRuntime) {
    let _ = print!(rt; "65537 bytes: ");
    let mut tally = Tally::default();
    tally.count(trial::run(rt, &record_room(), b"no 1\n"));
    let _ = println!(rt; "{tally}");
}
