// What a run reads and never changes.
ghost use Rattle.std.specs.Prelude.{◌≡◌, ◌+◌, ◌/◌, ◌≤◌, length};
ghost use Rattle.panel.specs.Spots.{spot_numbers};
ghost use Rattle.fit.specs.Rows.{rows, view_of};
ghost use Rattle.residuals.specs.Residual.{residuals, Computed};

use entry::Settings;
use fit::Pose;
use residuals::compute_residuals;

// The spots, the directions, the settings of the call, and how many places a region of the working lists has: enough for every spot and direction.
#[derive(Clone, Copy)]
pub(crate) struct Course<'a> {
    pub spots: &'a [f64],
    pub directions: &'a [f32],
    pub k: Settings,
    pub room: usize,
    ghost count: { k.count ≡ length directions.now / 3 },
    ghost fits: { length spots.now / spot_numbers + k.count ≤ room },
}

impl<'a> Course<'a> {
    // The residuals of matches at a pose, to the front of `floats`: how many of the matches lie in front of the plane.
    // Stays (fixed memory): the residuals lie along the matches, in a lent list of floats, and their count is answered.
    pub(crate) fn residuals(&self, matches: &[usize], pose: Pose, floats: &mut [f64]) -> usize
        ensures { Computed
            (residuals (view_of pose self.now.k.cut) (rows self.now.spots.now self.now.directions.now matches.now))
            floats.old floats.new result }
    {
        compute_residuals(
            matches,
            self.directions,
            self.spots,
            pose,
            self.k.cut,
            floats,
        )
    }
}
