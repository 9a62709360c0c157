// What is proved of the definitions. Each contract here is a theorem, and holds whoever calls the function, which does nothing: so the check of
// this crate is not passed while one of them is unproved.
ghost use Rattle.inquiries.specs.Claims.{CausesAreTrue};
ghost use Rattle.inquiries.specs.Cleared.{JustClearedIsTold};
ghost use Rattle.inquiries.specs.Examples.{Examples};

pub fn causes_are_true()
    ensures { CausesAreTrue }
{}

pub fn just_cleared_is_told()
    ensures { JustClearedIsTold }
{}

pub fn examples_hold()
    ensures { Examples }
{}
