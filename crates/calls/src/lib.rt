// Whole refinement calls, computed by the check. The substance is `calls` in specs/Calls.antt, in specs/Instance.antt an instance of the theorem
// about two calls, and in specs/Queried.antt one of calls that are refused before their run; a crate has to have a function.
#![tactic(auto)]

ghost use Rattle.std.specs.Prelude.{◌≡◌, length};
ghost use Rattle.calls.specs.Calls.{rows};

// How many calls `calls` shows: all that are listed there.
pub fn rows() -> u8
    ensures { result ≡ length rows }
{
    7
}
