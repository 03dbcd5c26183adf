// What the program prints of an answer, written into a lent list of bytes.
#![tactic(auto)]

ghost use Rattle.std.specs.Prelude.{◌≡◌, min, length};
ghost use Rattle.wcs_refine.specs.Returned.{handed, numbered};
ghost use Rattle.printing.specs.Text.{accepted_text, answer_text, refused_text, set_from};

use crate::laying::Writer;
use refusal::Refusal;
use wcs_refine::WcsRefineResult;

mod laying; // laying.rt: bytes laid into a list
mod numbers; // numbers.rt: digits
mod lines; // lines.rt: words with numbers after them
mod fields; // fields.rt: the lines of an answer

// The text of an answer and of the matches that it reports, spot then direction, at the front of `out`, as far as that has places. How many
// bytes of it hold text is the result.
// Stays (fixed memory): here and below the text stands at the front of the lent list, and how long it is is answered. Length and list are an equation
// each with the text, which one name for both would hide.
#[tactic(auto, using(crate::proofs::AnswerText::answer_refused, crate::proofs::AnswerText::answer_accepted))]
pub fn print_answer(
    answer: Result<WcsRefineResult, Refusal>,
    matches: &[usize],
    out: &mut [u8],
) -> usize
    ensures value { result ≡ min (length (answer_text (handed answer) matches.now)) (length out.old) }
    ensures out_after { out.new ≡ set_from 0 (answer_text (handed answer) matches.now) out.old }
{
    match answer {
        Ok(r) => print_accepted(&r, matches, out),
        Err(refusal) => print_refusal(refusal.number(), out),
    }
}

// The same of the values of an answer and any number beside them: where it is not 0, the text is that of a refusal.
#[tactic(auto, using(crate::proofs::AnswerText::answer_numbered))]
pub fn print_numbered(
    number: usize,
    r: &WcsRefineResult,
    matches: &[usize],
    out: &mut [u8],
) -> usize
    ensures value { result ≡ min (length (answer_text (numbered number r.now) matches.now)) (length out.old) }
    ensures out_after { out.new ≡ set_from 0 (answer_text (numbered number r.now) matches.now) out.old }
{
    if 0 < number {
        print_refusal(number, out)
    } else {
        print_accepted(r, matches, out)
    }
}

#[tactic(auto, using(crate::proofs::Pushes::laid_from))]
fn print_accepted(r: &WcsRefineResult, matches: &[usize], out: &mut [u8]) -> usize
    ensures value { result ≡ min (length (accepted_text (numbered 0 r.now) matches.now)) (length out.old) }
    ensures out_after { out.new ≡ set_from 0 (accepted_text (numbered 0 r.now) matches.now) out.old }
{
    let mut w = Writer { room: out, at: 0 };
    w.accepted(r, matches);
    w.at
}

// The same of a refusal by its number alone, for what is turned away before there is an answer.
// Stays (no plainer): any number is printed, and by a `Refusal` this would ask more of its callers.
#[tactic(auto, using(crate::proofs::Pushes::laid_from))]
pub fn print_refusal(number: usize, out: &mut [u8]) -> usize
    ensures value { result ≡ min (length (refused_text number)) (length out.old) }
    ensures out_after { out.new ≡ set_from 0 (refused_text number) out.old }
{
    let mut w = Writer { room: out, at: 0 };
    w.refused(number);
    w.at
}
