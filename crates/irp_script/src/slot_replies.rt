//! What word lines tell of the answers of cancel slots, and the tokens that come with these.

ghost use Rattle.std.specs.Prelude.{◌≡◌};
ghost use Rattle.irp_script.specs.AtSlots.{published_reply, published_token, requested_reply, requested_token, withdrawn_reply, withdrawn_token};

use irp_shared::WordReply;
use irp_slots::{Publication, Request, Token, Withdrawal};

/// Of a publication.
pub fn published(answer: Publication) -> (WordReply, Option<Token>)
    ensures reply { result.0 ≡ published_reply answer }
    ensures token { result.1 ≡ published_token answer }
{
    match answer {
        Publication::Used => (WordReply::Used, None),
        Publication::Standing => (WordReply::Standing, None),
        Publication::Taken(token) => {
            let use_no = token.use_no();
            (WordReply::Taken { use_no }, Some(token))
        }
        Publication::Lost => (WordReply::Lost, None),
    }
}

/// Of a withdrawal.
pub fn withdrawn(answer: Withdrawal) -> (WordReply, Option<Token>)
    ensures reply { result.0 ≡ withdrawn_reply answer }
    ensures token { result.1 ≡ withdrawn_token answer }
{
    match answer {
        Withdrawal::NotStanding => (WordReply::NotStanding, None),
        Withdrawal::Taken(token) => {
            let use_no = token.use_no();
            (WordReply::Taken { use_no }, Some(token))
        }
        Withdrawal::Lost => (WordReply::Lost, None),
    }
}

/// Of a request.
pub fn requested(answer: Request) -> (WordReply, Option<Token>)
    ensures reply { result.0 ≡ requested_reply answer }
    ensures token { result.1 ≡ requested_token answer }
{
    match answer {
        Request::NoSlot => (WordReply::NoSlot, None),
        Request::Taken(token) => {
            let use_no = token.use_no();
            (WordReply::Taken { use_no }, Some(token))
        }
        Request::Nothing => (WordReply::Nothing, None),
    }
}
