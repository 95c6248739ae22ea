ghost use Rattle.tm_lines.specs.FaultWords.{FaultWordsAreDistinct};
ghost use Rattle.tm_lines.specs.Spellings.{SpellingsAreDistinct, SpellingsReadBack};

/// Each first word is read back from its spelling, and no two have one spelling.
pub fn spellings_read_back()
    ensures back { SpellingsReadBack }
    ensures distinct { SpellingsAreDistinct }
{}

/// No two kinds of fault have one word.
pub fn fault_words_are_distinct()
    ensures { FaultWordsAreDistinct }
{}
