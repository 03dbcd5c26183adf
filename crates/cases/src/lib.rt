// The worked cases of the specification. The substance is `cases` in specs/Cases.antt, `match_lists` in specs/Lists.antt and `orderings`, `standing` in
// specs/Orderings.antt, which the check computes; a crate has to have a function.
#![tactic(auto)]

ghost use Rattle.std.specs.Prelude.{◌≡◌, length};
ghost use Rattle.cases.specs.Cases.{lines};

// How many of the specification's starred lines `cases` shows: all that are listed there.
pub fn lines() -> u8
    ensures { result ≡ length lines }
{
    6
}
