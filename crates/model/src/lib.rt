// The reference ledger and what it promises: each function states a promise, and its contract is proved.
#![tactic(auto)]

ghost use Rattle.model.specs.Promises.{VerdictsExact, FiguresExact, SchedulesAlike, NoIdleWait, SumsInRange, OthersAreRivals, UnfitRefuses};
ghost use Rattle.model.specs.Examples.{Worked, TwoSchedules};

// An ask is granted, fails or waits as all its outcomes say.
pub fn verdicts_are_exact()
    ensures { VerdictsExact }
{}

// INF and SUP are the least and the greatest that any ending leaves, and VAL is what is left when all are kept.
pub fn figures_are_exact()
    ensures { FiguresExact }
{}

// One script worked at two schedules is decided alike, and leaves equal bins.
pub fn schedules_are_alike()
    ensures { SchedulesAlike }
{}

// With no closed batch left again never answers waits.
pub fn no_wait_is_idle()
    ensures { NoIdleWait }
{}

// No sum that the ledger makes lies outside twice the limit.
pub fn sums_are_in_range()
    ensures { SumsInRange }
{}

// To ask the closed batches for a grant in a bin is to ask every batch but the active one.
pub fn others_are_rivals()
    ensures { OthersAreRivals }
{}

// A ledger opened on an unfit shelf refuses every call, and stays as it was opened.
pub fn unfit_ledgers_refuse()
    ensures { UnfitRefuses }
{}

// Every worked example holds.
pub fn examples_hold()
    ensures { Worked }
{}

// A script can be worked at two schedules, on two ledgers, to its end.
pub fn scripts_have_two_schedules()
    ensures { TwoSchedules }
{}
