ghost use Rattle.c11_shadow.specs.Words.{OthersChangeNothing};

/// An event that is no plain access changes nothing of what the words stand for.
pub fn others_change_nothing()
    ensures { OthersChangeNothing }
{}
