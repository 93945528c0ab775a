//! Laws of the definitions. Each function does nothing: its contract is the law.

ghost use Rattle.c11_io.specs.Laws.{NoRiseWhereItStays, OneCountStays, StopsBeforeTheLast, FaultTakesTheLimit, NoMemoryTakesTheLimit, TooLongTakesOneMore};

/// A count that stays has not risen, but at the largest `u64`.
pub fn no_rise_where_it_stays()
    ensures { NoRiseWhereItStays }
{}

/// Where a writing stops, one of its two counts has stayed.
pub fn one_count_stays()
    ensures { OneCountStays }
{}

/// A writing that stops has not appended all bytes.
pub fn stops_before_the_last()
    ensures { StopsBeforeTheLast }
{}

/// A reading that stops took at most the limit, but one byte more where there were too many.
pub fn stops_at_the_limit()
    ensures fault { FaultTakesTheLimit }
    ensures no_memory { NoMemoryTakesTheLimit }
    ensures too_long { TooLongTakesOneMore }
{}
