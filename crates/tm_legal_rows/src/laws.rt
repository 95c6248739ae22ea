ghost use Rattle.tm_legal_rows.specs.OneText.{LegalTextExists, OneLegalText};

/// A legal run has exactly one text: it has one, and two texts of it are the same bytes.
pub fn legal_runs_have_one_text()
    ensures exists { LegalTextExists }
    ensures unique { OneLegalText }
{}
