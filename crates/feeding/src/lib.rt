// How input goes by in blocks of any size, in definitions: whatever the blocks, what is said to them is the rehearsal of the input.
// What is proved of the definitions in specs/ stands in the contract of `claims`, and the function does nothing.
#![tactic(auto)]

ghost use Rattle.feeding.specs.Claims.{AnyBlocks};

pub fn claims()
    ensures { AnyBlocks }
{}
