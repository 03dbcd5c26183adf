// A round's search: predictions, then the matcher.
ghost use Rattle.wcs_refine.specs.Keeping.{state_of, Same, SearchedTo};
ghost use Rattle.wcs_refine.specs.Stepping.{searched_of};

use crate::associating::{Step, associate_spots};
use crate::looking::look;
use crate::working::Working;
use refusal::Refusal;

// The matcher's step, and how many queries were made before it: one or none.
#[derive(Drop)]
pub(crate) struct Sought {
    pub step: Step,
    pub queries: usize,
}

pub(crate) fn search(w: &mut Working<'_>, r: f64) -> Result<Sought, Refusal>
    ensures { Same w.old w.new
        × SearchedTo (state_of w.new) (searched_of w.old.course r (state_of w.old)) result }
{
    let l = look(w);
    w.held = l.held;
    let step = associate_spots(w, r, l.predicted)?;
    Ok(Sought {
        step,
        queries: l.queries,
    })
}
