// What a designer's text comes to, as a reply.
ghost use Rattle.std.specs.Prelude.{◌≡◌};
ghost use Rattle.sktelbaan.specs.Replies.{page_of};

use judging::TextRefusal;
use sktelbaan_runner::halves;

// How many blocks its page has, or the refusal with its byte.
pub fn page_reply(t: Result<u32, TextRefusal>) -> u64
    ensures { result ≡ page_of t }
{
    match t {
        Ok(n) => halves(0, n),
        Err(TextRefusal { number, at }) => halves(number, at),
    }
}
