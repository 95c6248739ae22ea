ghost use Rattle.std.specs.Prelude.{◌≡◌};
ghost use Rattle.tm_base.specs.TableRows.{waiting_reply as reply_while};

use tm_base::Reply;

/// The reply to a call that has to wait: `Stopped` where the object was stopped, else `Wait`.
pub fn waiting_reply(stopped: bool) -> Reply
    ensures { result ≡ reply_while stopped }
{
    if stopped { Reply::Stopped } else { Reply::Wait }
}
