// What is proved of the definitions. Each contract here is a theorem, and holds whoever calls the function, which does nothing: so the check of
// this crate is not passed while one of them is unproved.
ghost use Rattle.listing.specs.Causes.{OneToOne};

pub fn one_to_one()
    ensures { OneToOne }
{}
