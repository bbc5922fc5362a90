//! One function a command, each of which takes the command's step or refuses it.
ghost use Rattle.std.specs.Prelude.{◌≡◌, IfErr, OnOk};
ghost use Rattle.vob.specs.Refusal.{refusal_number};
ghost use Rattle.vob_run.specs.Answer.{answer_of, done, refused};

pub(crate) mod grow;
pub(crate) mod make;
pub(crate) mod make_usize;
pub(crate) mod pair;
pub(crate) mod raw;
pub(crate) mod read;
pub(crate) mod walk;
pub(crate) mod write;

use crate::command::Reply;
use vob::VobError;
use vob_block::Kernel;

// The reply to a call that was refused.
fn refused<T>(refusal: VobError) -> Reply<T>
    ensures { result ≡ Reply.Refused (refusal_number refusal) }
{
    Reply::Refused(refusal.number())
}

// The reply to a call that failed, or that returns nothing.
fn reply_to<T: Kernel>(called: Result<(), VobError>) -> Reply<T>
    ensures ok { OnOk called (answer_of T.number result ≡ done) }
    ensures err { IfErr called (λ refusal.
        answer_of T.number result ≡ refused (refusal_number refusal)) }
{
    match called {
        Ok(()) => Reply::Done,
        Err(refusal) => refused(refusal),
    }
}
