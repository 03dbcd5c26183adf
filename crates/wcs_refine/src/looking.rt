// The first half of a round's search: the cone query, unless the cached one still serves, and the predictions.
ghost use Rattle.std.specs.Prelude.{◌≡◌, ◌≤◌, true, false};
ghost use Rattle.query.specs.Sighting.{due};
ghost use Rattle.wcs_refine.specs.Keeping.{Same, LookedTo};
ghost use Rattle.wcs_refine.specs.Sighting.{ListedTo, ToldTo, PrunedTo};

use crate::predict::predict_into;
use crate::working::Working;
use fit::Pose;
use project::{boresight_of, camera_rows_f64};
use query::{
    Looked, Projection, after_query, axis32, is_due, least_cos_of, scan_into, without_query,
};

// The cone query at a pose, to the region of the cached directions.
fn list_cone(w: &mut Working<'_>, pose: Pose) -> usize
    ensures { Same w.old w.new
        × ListedTo w.old.course.k w.old.course.room w.old.course.directions.now pose w.old.numbers.now w.new.numbers.now result }
{
    let course = w.course;
    let axis = axis32(boresight_of(pose.crval()));
    let least = least_cos_of(course.k.search_radius(), course.k.requery_margin());
    let from = 2 * course.room;
    let to = 3 * course.room;
    scan_into(course.directions, axis, least, &mut w.numbers[from..to])
}

// The predictions of the n listed directions, to their regions.
fn predict(w: &mut Working<'_>, n: usize, rows: [[f64; 3]; 3]) -> usize
    requires { n ≤ w.old.course.room }
    ensures { Same w.old w.new
        × ToldTo w.old.course.k w.old.course.room n w.old.course.directions.now rows w.old.numbers.now w.new.numbers.now
        w.new.floats.now result }
{
    let course = w.course;
    let within = Projection::new(course.directions, rows, &course.k, course.k.prune_r());
    let from = 2 * course.room;
    let to = 3 * course.room;
    let end = 4 * course.room;
    predict_into(&within, w.numbers, from, n, to, &mut w.floats[from..end])
}

// Of the n listed directions, those within keep_r stay listed.
fn prune(w: &mut Working<'_>, n: usize, rows: [[f64; 3]; 3]) -> usize
    requires { n ≤ w.old.course.room }
    ensures { Same w.old w.new × (w.new.floats.now ≡ w.old.floats.now)
        × PrunedTo w.old.course.k w.old.course.room n w.old.course.directions.now rows w.old.numbers.now w.new.numbers.now result }
{
    let course = w.course;
    let within = Projection::new(course.directions, rows, &course.k, course.k.keep_r());
    let from = 2 * course.room;
    let to = from + n;
    within.prune_in_place(&mut w.numbers[from..to])
}

// A fresh query. It predicts before it prunes: what the query lists beyond keep_r is predicted this once.
fn look_afresh(w: &mut Working<'_>) -> Looked
    requires { due w.old.course.k w.old.held ≡ true }
    ensures { Same w.old w.new
        × LookedTo w.old.course.k w.old.course.room w.old.course.directions.now w.old.held w.old.numbers.now w.new.numbers.now
        w.new.floats.now result }
{
    let held = w.held;
    let pose = held.pose;
    let n = list_cone(w, pose);
    let rows = camera_rows_f64(pose.theta, pose.crval());
    let q = predict(w, n, rows);
    let c = prune(w, n, rows);
    after_query(held, c, q)
}

// The cached directions, predicted at the pose as it is.
fn look_again(w: &mut Working<'_>) -> Looked
    requires { due w.old.course.k w.old.held ≡ false }
    ensures { Same w.old w.new
        × LookedTo w.old.course.k w.old.course.room w.old.course.directions.now w.old.held w.old.numbers.now w.new.numbers.now
        w.new.floats.now result }
{
    let held = w.held;
    let pose = held.pose;
    let rows = camera_rows_f64(pose.theta, pose.crval());
    let n = held.cached;
    let q = predict(w, n, rows);
    without_query(held, q)
}

pub(crate) fn look(w: &mut Working<'_>) -> Looked
    ensures { Same w.old w.new
        × LookedTo w.old.course.k w.old.course.room w.old.course.directions.now w.old.held w.old.numbers.now w.new.numbers.now
        w.new.floats.now result }
{
    if is_due(w.course.k, w.held) {
        return look_afresh(w);
    }
    look_again(w)
}
