ghost use Rattle.tm_trace_texts.specs.TraceFaults.{TextsHaveOneTrace};

/// A text is that of one trace, or has a fault, or lacks a line `trace`: never two of these.
pub fn texts_have_one_trace()
    ensures { TextsHaveOneTrace }
{}
