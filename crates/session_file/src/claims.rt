// What is proved of the definitions. Each contract here is a theorem, and holds whoever calls the function, which does nothing: so the check of
// this crate is not passed while one of them is unproved.
ghost use Rattle.session_file.specs.Claims.{FileIsCourse, ClearedInFile, HeaderAsks, OnlySIAsks, CoveredInFile, RefusedByPlace};
ghost use Rattle.session_file.specs.Parts.{PartsAreListing};

pub fn file_is_course()
    ensures { FileIsCourse }
{}

pub fn cleared_in_file()
    ensures { ClearedInFile }
{}

pub fn refused_by_place()
    ensures { RefusedByPlace }
{}

pub fn header_asks()
    ensures { HeaderAsks }
{}

pub fn only_si_asks()
    ensures { OnlySIAsks }
{}

pub fn covered_in_file()
    ensures { CoveredInFile }
{}

pub fn parts_are_listing()
    ensures { PartsAreListing }
{}
