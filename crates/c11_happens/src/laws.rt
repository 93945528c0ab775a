ghost use Rattle.c11_happens.specs.Laws.{TextsDoNotMatter};

/// What a [`Happens`](crate::Happens) says of the events noted, without texts, holds of the events with their texts.
pub fn texts_do_not_matter()
    ensures { TextsDoNotMatter }
{}
