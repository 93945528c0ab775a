ghost use Rattle.c11_machine.specs.Stands.{AsksWhereCodeAsks, AsksWhereWanted, OneAsk};

/// Where a thread stands for replies after which the program's syntax trees ask something, the code of the program comes to an ask,
/// so the thread may go on.
pub fn asks_where_wanted()
    ensures { AsksWhereWanted }
{}

/// From where a thread is, the code comes to one ask at most.
pub fn one_ask()
    ensures { OneAsk }
{}

/// Where the code asks something after the replies for which a thread stands, it comes to that from where the thread is.
pub fn asks_where_code_asks()
    ensures { AsksWhereCodeAsks }
{}
