ghost use Rattle.std.specs.Prelude.{◌≡◌};
ghost use Rattle.tm_event_lines.specs.EventWords.{is_gave, is_got, outcomes, refusals, reply_among, reply_of, takes_detail};

use tm_base::Reply;

/// Whether the reply names a thread.
pub fn is_gave(word: &[u8]) -> bool
    ensures { result ≡ is_gave word.now }
{
    word == b"gave".as_slice()
}

/// Whether the reply brings a value.
pub fn is_got(word: &[u8]) -> bool
    ensures { result ≡ is_got word.now }
{
    word == b"got".as_slice()
}

/// Whether one word more follows the reply's word.
pub fn takes_detail(word: &[u8]) -> bool
    ensures { result ≡ takes_detail word.now }
{
    is_gave(word) || is_got(word)
}

/// The reply that the word spells. It names this thread or brings this value, where it does. `None` exactly where the
/// word spells none.
pub fn reply_of(thread: u32, value: i64, word: &[u8]) -> Option<Reply>
    ensures { result ≡ reply_of thread value word.now }
{
    if is_gave(word) {
        return Some(Reply::Gave(thread));
    }
    if is_got(word) {
        return Some(Reply::Got(value));
    }
    match outcome_of(word) {
        Some(reply) => Some(reply),
        None => refusal_of(word),
    }
}

/// The reply that the word spells, of those that neither name a thread, nor bring a value, nor refuse a call.
fn outcome_of(word: &[u8]) -> Option<Reply>
    ensures { result ≡ reply_among outcomes word.now }
{
    match word {
        b"ok" => Some(Reply::Ok),
        b"wait" => Some(Reply::Wait),
        b"last" => Some(Reply::Last),
        b"stopped" => Some(Reply::Stopped),
        b"cut" => Some(Reply::Cut),
        _ => None,
    }
}

/// The reply that the word spells, of those that refuse a call.
fn refusal_of(word: &[u8]) -> Option<Reply>
    ensures { result ≡ reply_among refusals word.now }
{
    match word {
        b"held" => Some(Reply::Held),
        b"notowner" => Some(Reply::NotOwner),
        b"busy" => Some(Reply::Busy),
        b"zero" => Some(Reply::Zero),
        b"full" => Some(Reply::Full),
        b"closed" => Some(Reply::Closed),
        b"already" => Some(Reply::Already),
        b"self" => Some(Reply::Myself),
        _ => None,
    }
}
