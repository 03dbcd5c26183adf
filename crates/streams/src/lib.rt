// What the programs read: rooms filled from a reader or a file. No clause can say which bytes come; how many there are is at most the room.
#![tactic(auto)]

ghost use Rattle.std.specs.Prelude.{◌≤◌, ◌<◌, length, IfOk, Some};
ghost use Rattle.streams.specs.Text.{unread_text};

mod entries; // entries.rt: files of entries with what is expected of each

pub use entries::{Tally, Told};
use std::fmt;
use std::io::Read;

// Why a file is not to be had.
#[derive(Clone, Copy, Debug, PartialEq, Eq)]
pub enum Unread {
    NotOpened,
    TooLong,
}

impl fmt::Display for Unread {
    ghost output = { λ u. Some (unread_text u) };

    #[tactic(auto, unfolding(crate::specs::Text::unread_text))]
    fn fmt<W: fmt::Write>(&self, f: &mut fmt::Formatter<W>) -> fmt::Result {
        match self {
            Unread::NotOpened => write!(f, "not to be opened"),
            Unread::TooLong => write!(f, "too long"),
        }
    }
}

// Reads a file into the room, whole: it has to be shorter than the room, since one that fills it may go on. Answers how many bytes it has, or why it is
// not to be had.
pub fn read_file(rt: &HostRuntime, name: &str, room: &mut [u8]) -> Result<usize, Unread>
    ensures { IfOk result (λ n. n < length room.new) }
{
    let mut file = std::fs::open(rt, name).map_err(|_| Unread::NotOpened)?;
    let n = read_full(&mut file, room);
    if n < room.len() {
        Ok(n)
    } else {
        Err(Unread::TooLong)
    }
}

// Reads until the room is full, the input ends or a read fails. Answers how many bytes stand at the room's start.
pub fn read_full<R: Read>(reader: &mut R, room: &mut [u8]) -> usize
    ensures { result ≤ length room.new }
{
    let mut done: usize = 0;
    while done < room.len() {
        let n = read_some(reader, &mut room[done..]);
        if n == 0 {
            return done;
        }
        done += n;
    }
    done
}

// One read: how many bytes it brought, and 0 where it failed.
// Stays (no plainer): a read that fails ends the input as one that brings nothing does, and what came before is answered.
fn read_some<R: Read>(reader: &mut R, room: &mut [u8]) -> usize
    ensures { result ≤ length room.new }
{
    reader.read(room).unwrap_or(0)
}
