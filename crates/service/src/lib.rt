// The service as a whole: what is proved of its calls together, on the tables as they are stored. The contract of `claims` states
// it, and the function does nothing.
#![tactic(auto)]

ghost use Rattle.service.specs.Claims.{CallsFollow, CodeHolds, CodeSettles, PicturesReturn, OneOutcome};

pub fn claims()
    ensures { CallsFollow × CodeHolds × CodeSettles × PicturesReturn × OneOutcome }
{}
