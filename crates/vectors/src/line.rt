// One line of a file: taken apart, run, and compared.
use crate::{fitting, geometry, matrices, pairing, querying, sampling, scalar};
use std::str;
use streams::Tally;

// A line taken apart: its function's name, the arguments, and the expected numbers.
#[derive(Clone, Copy)]
pub(crate) struct Asked<'e> {
    pub name: &'e str,
    pub a: &'e [usize],
    pub e: &'e [usize],
}

// The value of a hexadecimal digit in upper case, and 16 of any other byte, which spoils the number.
fn digit(b: u8) -> usize {
    match b {
        b'0'..=b'9' => usize::from(b - b'0'),
        b'A'..=b'F' => usize::from(b - b'A') + 10,
        _ => 16,
    }
}

// The number before a space, or all of the word; of more than 16 digits the last 16.
// Stays (no plainer): `usize::from_str_radix` takes lower case and a sign too, so what is no line of a file would pass as one.
fn number(word: &[u8]) -> usize {
    word.iter()
        .take_while(|b| **b != b' ')
        .fold(0usize, |x, b| x.wrapping_mul(16).wrapping_add(digit(*b)))
}

// The numbers of the text, with a space between them, go to the list, which has to have room.
fn numbers<'a>(text: &[u8], list: &'a mut [usize]) -> Option<&'a [usize]> {
    let words = text.split_inclusive(|b| *b == b' ');
    let list = list.get_mut(..text.split_inclusive(|b| *b == b' ').count())?;
    for (place, word) in list.iter_mut().zip(words) {
        *place = number(word);
    }
    Some(list)
}

// What stands before the byte where it stands first, and what stands behind it.
fn parted(text: &[u8], byte: u8) -> Option<(&[u8], &[u8])> {
    let mut parts = text.splitn(2, |b| *b == byte);
    Some((parts.next()?, parts.next()?))
}

// The function that is asked, on its arguments: what is left of the expected numbers behind its answer.
// Stays (no plainer): the name is text of the file, and the functions behind the names differ in their types, so that each module has a `match` on it.
fn answer(asked: Asked<'_>) -> Option<&[usize]> {
    scalar::answer(asked)
        .or_else(|| geometry::answer(asked))
        .or_else(|| matrices::answer(asked))
        .or_else(|| fitting::answer(asked))
        .or_else(|| sampling::answer(asked))
        .or_else(|| querying::answer(asked))
        .or_else(|| pairing::answer(asked))
}

// Whether the line says what its function answers; None where it is no such line. Arguments that are missing read as 0.
fn is_right(line: &[u8]) -> Option<bool> {
    let (name, rest) = parted(line, b' ')?;
    let (arguments, expected) = parted(rest, b'=')?;
    let name = str::from_utf8(name).ok()?;
    let mut a = [0; 128];
    let mut e = [0; 64];
    let a = numbers(arguments, &mut a)?;
    let e = numbers(expected.get(1..).unwrap_or(&[]), &mut e)?;
    Some(answer(Asked { name, a, e })?.is_empty())
}

// The lines of a file of vectors. A line is written out where it is not as expected.
pub(crate) fn tally(rt: &HostRuntime, file: &[u8]) -> Tally {
    let mut t = Tally::default();
    for line in file.split(|b| *b == b'\n') {
        if line.is_empty() || line.starts_with(b"#") {
            continue;
        }
        let right = is_right(line) == Some(true);
        if !right {
            let _ = rt.write_all(b"not as expected: ");
            let _ = rt.write_all(line);
            let _ = rt.write_all(b"\n");
        }
        t.count(right);
    }
    t
}
