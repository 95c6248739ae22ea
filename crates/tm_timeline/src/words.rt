ghost use Rattle.std.specs.Prelude.{◌≡◌, ◌≤◌, ◌∷◌, [], length};
ghost use Rattle.tm_timeline.specs.Words.{reply_word, bar_letter, end_word};

use tm_base::{Bar, End, Reply};

/// The reply's word.
pub fn reply_word(reply: Reply) -> &'static [u8]
    ensures word { result.now ≡ reply_word reply }
    ensures short { length result.now ≤ 8 }
{
    match reply {
        Reply::Ok => b"ok",
        Reply::Wait => b"wait",
        Reply::Gave(_) => b"gave",
        Reply::Got(_) => b"got",
        Reply::Held => b"held",
        Reply::NotOwner => b"notowner",
        Reply::Busy => b"busy",
        Reply::Zero => b"zero",
        Reply::Full => b"full",
        Reply::Last => b"last",
        Reply::Stopped => b"stopped",
        Reply::Closed => b"closed",
        Reply::Already => b"already",
        Reply::Myself => b"self",
        Reply::Cut => b"cut",
    }
}

/// The letter of a thread's bar.
///
/// Each test picks one of two letters, without a branch, so that a loop over bars writes many letters at once.
pub fn bar_letter(bar: Bar) -> u8
    ensures { bar_letter bar ≡ result ∷ [] }
{
    let letter = if matches!(bar, Bar::Runs) { b'R' } else { b'-' };
    let letter = if matches!(bar, Bar::Blocked) {
        b'B'
    } else {
        letter
    };
    let letter = if matches!(bar, Bar::Granted) {
        b'G'
    } else {
        letter
    };
    if matches!(bar, Bar::Ended) {
        b'E'
    } else {
        letter
    }
}

/// The word that says how a run ended.
pub fn end_word(end: End) -> &'static [u8]
    ensures { result.now ≡ end_word end }
{
    match end {
        End::Done => b"done",
        End::Stuck => b"stuck",
        End::Budget => b"budget",
    }
}
