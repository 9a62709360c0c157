// What is proved of the definitions. Each contract here is a theorem, and holds whoever calls the function, which does nothing: so the check of
// this crate is not passed while one of them is unproved.
ghost use Rattle.file_inquiries.specs.Claims.{RefusedByNumber, RefusedByQuestion, ClearedFileIsTold};

pub fn refused_by_number()
    ensures { RefusedByNumber }
{}

pub fn refused_by_question()
    ensures { RefusedByQuestion }
{}

pub fn cleared_file_is_told()
    ensures { ClearedFileIsTold }
{}
