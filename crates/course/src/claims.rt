// What is proved of the definitions. Each contract here is a theorem, and holds whoever calls the function, which does nothing: so the check of
// this crate is not passed while one of them is unproved.
ghost use Rattle.std.specs.Prelude.{ℤ};
ghost use Rattle.auction_engine.specs.declared.Session.{Session};
ghost use Rattle.course.specs.Demand2.{Demand2};
ghost use Rattle.course.specs.Demand3.{Demand3, Completion};
ghost use Rattle.course.specs.FillCount.{FillsBeforeCrank};
ghost use Rattle.course.specs.Lines.{LinesTell};
ghost use Rattle.course.specs.Refusals.{RefusedByItsRow, RecordRefusedByItsRow};
ghost use Rattle.course.specs.Applied.{RunIsAnswers, ApplyIsRun};
ghost use Rattle.course.specs.Covered.{CoveredAtClear};
ghost use Rattle.course.specs.CaseL.{CaseL};
ghost use Rattle.course.specs.Exclusions.{KindsFit, KindIsKept};

pub fn demand2()
    ensures { (s : Session) (now : ℤ) → Demand2 s now }
{}

pub fn demand3()
    ensures { Demand3 }
{}

pub fn completion()
    ensures { Completion }
{}

pub fn fills_before_crank()
    ensures { FillsBeforeCrank }
{}

pub fn lines_tell()
    ensures { LinesTell }
{}

pub fn refused_by_its_row()
    ensures { RefusedByItsRow }
{}

pub fn record_refused_by_its_row()
    ensures { RecordRefusedByItsRow }
{}

pub fn run_is_answers()
    ensures { RunIsAnswers }
{}

pub fn apply_is_run()
    ensures { ApplyIsRun }
{}

pub fn covered_at_clear()
    ensures { CoveredAtClear }
{}

pub fn kinds_fit()
    ensures { KindsFit }
{}

pub fn kind_is_kept()
    ensures { KindIsKept }
{}

pub fn case_l()
    ensures { CaseL }
{}
