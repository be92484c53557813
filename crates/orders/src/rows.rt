//! Whom a line is for, and its order, or why it is refused.
ghost use Rattle.std.specs.Prelude.{◌≡◌, length};
ghost use Rattle.lines.specs.Lines.{kept};
ghost use Rattle.store.specs.Stores.{store as stored};
ghost use Rattle.orders.specs.Judged.{by_rows, judged_from, judged, Admitted};

use crate::command::Command;
use crate::order::{Judgement, Order, Situation};
use crate::read::read_from;
use crate::state::check_state;
use crate::values::order_of;
use faults::Fault;
use lines::{Addressee, Line};
use store::Store;

// The order of a command, by the rows state, values and store.
fn by_rows(command: Command, at: Situation, store: &Store) -> Result<Order, Fault>
    requires { length store.now.records.now ≡ 414 }
    ensures { result ≡ by_rows at (stored store.now) command }
{
    check_state(command, at.busy)?;
    order_of(command, at, store)
}

// The order of a line that is read from its character `from` on.
fn judge_from(
    line: &Line,
    from: usize,
    broadcast: bool,
    at: Situation,
    store: &Store,
) -> Result<Order, Fault>
    requires { length store.now.records.now ≡ 414 }
    ensures { result ≡ judged_from from broadcast at (stored store.now) (kept line.now) }
{
    by_rows(read_from(line, from, broadcast)?, at, store)
}

/// What a finished line comes to at a module in this situation, over a phase memory of 414 records. An own line is read after its
/// address, a broadcast from its first letter. The first row that refuses decides: receiver, reader, state, values, store.
pub fn judge(line: &Line, at: Situation, store: &Store) -> Judgement
    requires { length store.now.records.now ≡ 414 }
    ensures judged { result ≡ judged at (stored store.now) (kept line.now) }
    ensures admitted { Admitted at (stored store.now) result }
{
    match line.addressee(at.address) {
        Addressee::Own => Judgement::Own(judge_from(line, 2, false, at, store)),
        Addressee::Broadcast => Judgement::Broadcast(judge_from(line, 0, true, at, store)),
        Addressee::Stranger => Judgement::Stranger,
    }
}
