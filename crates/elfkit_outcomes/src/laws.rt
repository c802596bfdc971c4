//! Theorems over the outcomes. Each is the contract of a function that does nothing: what it
//! ensures holds of every outcome, and is proved.

ghost use Rattle.elfkit_outcomes.specs.OpenedAgain.{StopsWhereUnread};

/// Where a command makes one file and opens it again, as the self test does, and the opening fails:
/// the failure is a fault of reading, the file holds its bytes, and a run that stops there, with
/// status 3 and no output, has delivered what it may.
pub fn stops_where_unread()
    ensures { StopsWhereUnread }
{}
