//! The passes of an opening, taken out of their list.
ghost use Rattle.std.specs.Prelude.{◌≡◌, ◌<◌, ◌∷◌, ◌++◌, [], length};

use monitor::Pass;

/// The passes of an opening for two threads, in order, as in `let (mut one, mut two) = two_passes(passes);`. For more
/// threads than three, go over the list.
pub fn two_passes(passes: Vec<Pass>) -> (Pass, Pass)
    requires two { length passes.items ≡ 2 }
    ensures in_order { passes.items ≡ result.0 ∷ result.1 ∷ [] }
{
    let mut passes = passes;
    let last = last_pass(&mut passes);
    let first = last_pass(&mut passes);
    (first, last)
}

/// The passes of an opening for three threads, in order.
pub fn three_passes(passes: Vec<Pass>) -> (Pass, Pass, Pass)
    requires three { length passes.items ≡ 3 }
    ensures in_order { passes.items ≡ result.0 ∷ result.1 ∷ result.2 ∷ [] }
{
    let mut passes = passes;
    let last = last_pass(&mut passes);
    let (first, second) = two_passes(passes);
    (first, second, last)
}

fn last_pass(passes: &mut Vec<Pass>) -> Pass
    requires some { 0 < length passes.old.items }
    ensures last { passes.old.items ≡ passes.new.items ++ result ∷ [] }
{
    let Some(pass) = passes.pop() else {
        unreachable!()
    };
    pass
}
