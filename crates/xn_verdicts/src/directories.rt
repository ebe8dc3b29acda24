//! Of each directory of an image one verdict: what the code that reads it answers is all that it could answer.

ghost use Rattle.xn_verdicts.specs.Directories.{BreaksOneRule, HoldsOneList, HoldsOrBreaks, IsOneDotdot};

/// A directory holds one list of entries and one dotdot at most.
pub fn directory_holds_one_list()
    ensures { HoldsOneList }
{}

/// The dotdot that is read before the leaf entries are looked at is that of the directory.
pub fn directory_of_one_dotdot()
    ensures { IsOneDotdot }
{}

/// A directory breaks one rule first, and that rule names one block.
pub fn directory_breaks_one_rule()
    ensures { BreaksOneRule }
{}

/// A directory that holds entries, each with a name of its own, breaks no rule.
pub fn directory_holds_or_breaks()
    ensures { HoldsOrBreaks }
{}
