ghost use Rattle.std.specs.Prelude.{◌≡◌};
ghost use Rattle.tm_event_lines.specs.EventFaults.{has_unknown_word, has_wrong_count, is_unknown_operation, is_unknown_reply, lacks_detail, lacks_operand, lacks_word};
ghost use Rattle.tm_event_lines.specs.EventWords.{parts_in};

use crate::bars::are_bars;
use crate::event_words::{EventWords, operation_of, takes_operand};
use crate::reply_words::{reply_of, takes_detail};

/// Whether the operation or the reply is there and unknown.
pub fn has_unknown_word(words: &EventWords) -> bool
    ensures { result ≡ has_unknown_word (parts_in words.now) }
{
    is_unknown_operation(words.operation) || is_unknown_reply(words.reply)
}

/// Whether the word is there, and spells no operation.
fn is_unknown_operation(word: &[u8]) -> bool
    ensures { result ≡ is_unknown_operation word.now }
{
    !word.is_empty() && operation_of(word).is_none()
}

/// Whether the word is there, and spells no reply.
fn is_unknown_reply(word: &[u8]) -> bool
    ensures { result ≡ is_unknown_reply word.now }
{
    !word.is_empty() && reply_of(0, 0, word).is_none()
}

/// Whether one of the words isn't there, or there is one behind that isn't a word of bars at the end.
pub fn has_wrong_count(words: &EventWords) -> bool
    ensures { result ≡ has_wrong_count (parts_in words.now) }
{
    lacks_word(words) || !are_bars(words.behind)
}

/// Whether one of the words isn't there.
fn lacks_word(words: &EventWords) -> bool
    ensures { result ≡ lacks_word (parts_in words.now) }
{
    words.stamp.is_empty()
        || words.thread.is_empty()
        || words.object.is_empty()
        || words.operation.is_empty()
        || lacks_operand(words)
        || words.reply.is_empty()
        || lacks_detail(words)
}

/// Whether the operation has an operand that isn't there.
fn lacks_operand(words: &EventWords) -> bool
    ensures { result ≡ lacks_operand (parts_in words.now) }
{
    takes_operand(words.operation) && words.operand.is_empty()
}

/// Whether the reply names a thread or brings a value that isn't there.
fn lacks_detail(words: &EventWords) -> bool
    ensures { result ≡ lacks_detail (parts_in words.now) }
{
    takes_detail(words.reply) && words.detail.is_empty()
}
