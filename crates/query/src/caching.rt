// The cached query: whether it still serves, and what is cached after a fresh one.
ghost use Rattle.std.specs.Prelude.{◌≡◌};
ghost use Rattle.query.specs.Sighting.{due, afresh, kept};

use crate::{Held, Looked};
use entry::Settings;
use project::{boresight_of, dot};
use rounding::abs;

// Whether a query is due: none is cached, or the pose has left its boresight or its roll too far behind.
#[tactic(auto, unfolding(crate::specs::Query::drifted))]
pub fn is_due(k: Settings, held: Held) -> bool
    ensures { result ≡ due k held }
{
    if !held.filled {
        return true;
    }
    let now = boresight_of(held.pose.crval());
    dot(held.boresight, now) < k.requery_cos()
        || k.theta_margin() < abs(held.pose.theta - held.theta)
}

// The answer after a fresh query, which is cached at the pose as it is.
pub fn after_query(held: Held, cached: usize, predicted: usize) -> Looked
    ensures { result ≡ afresh held cached predicted }
{
    let pose = held.pose;
    Looked {
        held: Held {
            filled: true,
            boresight: boresight_of(pose.crval()),
            theta: pose.theta,
            cached,
            ..held
        },
        predicted,
        queries: 1,
    }
}

// The answer where the cached query serves.
pub fn without_query(held: Held, predicted: usize) -> Looked
    ensures { result ≡ kept held predicted }
{
    Looked {
        held,
        predicted,
        queries: 0,
    }
}
