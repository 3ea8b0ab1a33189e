// The reply to a text that has a fault.
ghost use Rattle.std.specs.Prelude.{◌≡◌, true, IfOk, IsTrue};
ghost use Rattle.pool_replies.specs.Refusals.{is_fault_of_text};
ghost use Rattle.pool_replies.specs.Replies.{is_printable};
ghost use Rattle.pool_replies.specs.declared.refusal.Refusal.TheVariants as why;
ghost use Rattle.pool_replies.specs.declared.reply.Reply.TheVariants as replies;

use ad_parser::ParseFault;
use pool_replies::{Refusal, Reply};
use pool_text::OutOfMemory;

/// The reply to a text that has a fault; want of memory is none.
#[tactic(auto, unfolding(pool_replies::specs::Replies::is_printable, pool_replies::specs::Refusals::is_printable_refusal))]
pub(crate) fn faulty(fault: ParseFault) -> Result<Reply, OutOfMemory>
    ensures reply { IfOk result (λ reply. (reply ≡ replies.Refused (why.AdText fault)) × (is_fault_of_text fault ≡ true)) }
    ensures printable { IfOk result (λ reply. IsTrue (is_printable reply)) }
{
    match fault {
        ParseFault::OutOfMemory => Err(OutOfMemory),
        fault => Ok(Reply::Refused(Refusal::AdText(fault))),
    }
}
