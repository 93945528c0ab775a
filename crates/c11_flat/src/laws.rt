ghost use Rattle.c11_flat.specs.Law.{FlatAsksAsTrees, AReplyIsLeft};

/// The flat code of a program asks, for each list of replies, exactly what the program's syntax trees ask, and ends without an answer
/// where these have none. No condition is on the program, the replies, or their kinds.
pub fn flat_asks_as_trees()
    ensures { FlatAsksAsTrees }
{}

/// A further reply changes nothing of what was done before it: the code comes to the same place, and has that reply left.
pub fn a_reply_is_left()
    ensures { AReplyIsLeft }
{}
