// The lines of an answer.
ghost use Rattle.printing.specs.Laying.{Writes};
ghost use Rattle.wcs_refine.specs.Returned.{numbered};
ghost use Rattle.printing.specs.Text.{refused_text, accepted_text};

use crate::laying::Writer;
use wcs_refine::WcsRefineResult;

impl Writer<'_> {
    #[tactic(auto, unfolding(crate::specs::Text::refused_text))]
    pub(crate) fn refused(&mut self, number: usize)
        ensures { Writes (refused_text number) self.old self.new }
    {
        self.push_line(b"no", &[number]);
    }

    // Line after line.
    pub(crate) fn accepted(&mut self, r: &WcsRefineResult, matches: &[usize])
        ensures { Writes (accepted_text (numbered 0 r.now) matches.now) self.old self.new }
    {
        let p = r.pose;
        self.push_line(b"ok", &[r.matches, r.rounds, r.passes, r.queries]);
        self.push_line(b"pose", &[p.theta, p.ra, p.dec, p.scale]);
        let [[a, b], [c, d]] = r.cd;
        self.push_line(b"cd", &[a, b, c, d]);
        self.push_line(b"rms", &[r.rmse_rad]);
        let [[e, f, g], [h, i, j], [k, l, m]] = r.cov;
        self.push_line(b"cov", &[e, f, g, h, i, j, k, l, m]);
        self.match_lines(matches);
    }
}
