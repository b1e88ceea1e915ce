// What is asked of the whole text, once its lines were read.
// `Kept` is asked for in contracts: `Tables` itself stands for every value (see there).
ghost use Rattle.std.specs.Prelude.{◌≡◌};
ghost use Rattle.papers.specs.refused.Refused.{refusal_of};
ghost use Rattle.protocol.specs.whole.Whole.{whole_refusal};
ghost use Rattle.protocol.specs.whole.Kept.{Kept};

use papers::refused::{Reason, Refused};
use tables::Tables;

// That there is a message, and an entry for each stalled message.
pub(crate) fn finished(t: &Tables) -> Result<(), Refused>
    requires { Kept t.now }
    ensures { refusal_of result ≡ whole_refusal t.now }
{
    let messages = t.message_count;
    if messages == 0 {
        return Err(Refused::whole(Reason::NoMessage, 0));
    }
    if let Some(i) = table_rows::entries::no_entry(t) {
        let line = 2 + messages + t.event_count + t.state_count + i;
        return Err(Refused::whole(Reason::NoEntry, line));
    }
    Ok(())
}
