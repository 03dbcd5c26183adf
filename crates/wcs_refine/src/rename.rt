// The matcher's matches by their directions.
ghost use Rattle.std.specs.Prelude.{◌≡◌, ◌%◌, ◌≤◌, ◌++◌, length, drop};
ghost use Rattle.wcs_refine.specs.Listing.{renamed_by};

use lists::number_at;

// The matches, spot and place, written over the front of a list with the direction for the place, which `ids` holds; 0 past its end.
pub(crate) fn renamed_into(ids: &[usize], matches: &[usize], new: &mut [usize])
    requires { (length matches.now % 2 ≡ 0) × (length matches.now ≤ length new.old) }
    ensures { new.new ≡ renamed_by ids.now matches.now ++ drop (length matches.now) new.old }
{
    for i in 0..matches.len() / 2 {
        new[2 * i] = matches[2 * i];
        new[2 * i + 1] = number_at(ids, matches[2 * i + 1]);
    }
}
