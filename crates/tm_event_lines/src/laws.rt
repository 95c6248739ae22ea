ghost use Rattle.tm_event_lines.specs.EventTexts.{EventLinesSayEvents, EventTextsReadBack, RowsAreLines};

/// Each event that a trace can have, with values of 64 bits, is read back from its text, and from each row of it
/// without its LF.
pub fn event_texts_read_back()
    ensures back { EventTextsReadBack }
    ensures rows { RowsAreLines }
{}

/// What an event line says is an event that a trace can have, with values of 64 bits.
pub fn event_lines_say_events()
    ensures { EventLinesSayEvents }
{}
