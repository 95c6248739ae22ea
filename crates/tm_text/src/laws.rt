ghost use Rattle.tm_text.specs.CanonicalTexts.{CanonicalTextsReadBack};
ghost use Rattle.tm_text.specs.Exercises.{CallsFit};
ghost use Rattle.tm_text.specs.SaidLines.{SpelledBothWays};
ghost use Rattle.tm_text.specs.Scripts.{AskedCallsFit};
ghost use Rattle.tm_text.specs.Texts.{ExercisesAreWellFormed, OneExercise};

/// In a well-formed exercise every call of a program is one that its object has.
pub fn calls_fit()
    ensures { CallsFit }
{}

/// A program whose calls are those of objects of some kinds asks such a call, or nothing more.
pub fn asked_calls_fit()
    ensures { AskedCallsFit }
{}

/// A text is that of one exercise at most.
pub fn one_exercise()
    ensures { OneExercise }
{}

/// The exercise of a text is well formed.
pub fn exercises_are_well_formed()
    ensures { ExercisesAreWellFormed }
{}

/// The lines of a text of an exercise spell it forwards, and a text without a faulty line is one of the
/// well-formed exercise that its lines spell.
pub fn exercises_are_spelled()
    ensures { SpelledBothWays }
{}

/// The canonical text of a well-formed exercise, whose numbers are of 64 bits, is a text of it, where it is no
/// longer than a text may be.
pub fn canonical_texts_read_back()
    ensures { CanonicalTextsReadBack }
{}
