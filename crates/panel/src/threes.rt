// Three things that lie together in a flat list, as the numbers of a spot and the components of a direction do. Each one past the list's end
// reads as `past`, so that every index has three.
ghost use Rattle.std.specs.Prelude.{◌≡◌, ◌≤◌, ◌/◌, length};
ghost use Rattle.panel.specs.Threes.{three_at};

use lists::at;

// The three from place 3 i on.
#[tactic(auto, unfolding(crate::specs::Threes::three_at))]
pub fn three_at<T: Copy>(list: &[T], i: usize, past: T) -> [T; 3]
    ensures { result ≡ three_at list.now i past }
{
    if i < list.len() / 3 {
        let k = 3 * i;
        return [list[k], list[k + 1], list[k + 2]];
    }
    three_past(list, i, past)
}

// The same where the list ends before the third.
#[tactic(auto, unfolding(crate::specs::Threes::three_at))]
fn three_past<T: Copy>(list: &[T], i: usize, past: T) -> [T; 3]
    requires { length list.now / 3 ≤ i }
    ensures { result ≡ three_at list.now i past }
{
    if list.len() / 3 < i {
        return [past; 3];
    }
    let rest = &list[3 * i..];
    [at(rest, 0, past), at(rest, 1, past), past]
}
