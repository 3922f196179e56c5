//! Replies put in the order of the jobs.
ghost use Rattle.std.specs.Prelude.{◌≡◌, ◌<◌, ℕ, ◌∷◌, IfOk, Some, List, length, map, slice_index_or};
ghost use Rattle.std.specs.Arc.{arc_value};
ghost use Rattle.sno_statement.specs.Statement.{Statement as Job};
ghost use Rattle.sno_desk.specs.Replies.{Reply};
ghost use Rattle.sno_desk.specs.Turns.{Deals, HasTurns};

use crate::{Reply, Seat, WorkersFault};
use sno_published::Naming;
use sno_statement::Statement;
use std::alloc::{AllocError, Global};
use std::collections::VecDeque;
use std::sync::Arc;

/// Returns the replies that the seats have kept, a queue for each. `Memory` if a seat kept no replies because it ran
/// out of memory, or if this call does.
pub(crate) fn collect<L: Naming>(
    alloc: Global,
    seats: &mut [Seat<L>],
) -> Result<VecDeque<VecDeque<Reply>>, WorkersFault>
    ensures as_many { IfOk result (λ queues. length queues.items ≡ length seats.old) }
    ensures taken { IfOk result (λ queues. (k : ℕ) (d : Seat L) (e : _) → k < length seats.old → (slice_index_or seats.old k d).replies ≡ Some (slice_index_or queues.items k e).items) }
    ensures same { (k : ℕ) (d : Seat L) → k < length seats.old → (slice_index_or seats.new k d).accepted ≡ (slice_index_or seats.old k d).accepted }
    ensures same_view { (k : ℕ) (d : Seat L) → k < length seats.old → (slice_index_or seats.new k d).seen ≡ (slice_index_or seats.old k d).seen }
{
    let mut queues = VecDeque::new(alloc);
    for seat in seats.iter_mut() {
        let Some(replies) = seat.take_replies() else {
            return Err(WorkersFault::Memory);
        };
        queues.push_back(replies)?;
    }
    Ok(queues)
}

/// Returns the first reply of the first queue, which becomes the last queue.
fn next_reply(queues: &mut VecDeque<VecDeque<Reply>>) -> Reply
    requires some { 0 < length queues.old.items }
    requires waiting { (d : _) → 0 < length (slice_index_or queues.old.items 0 d).items }
    ensures order { (replies : List Reply) → Deals (length queues.old.items) 0 (map (λ q. q.items) queues.new.items) replies
        → Deals (length queues.old.items) 0 (map (λ q. q.items) queues.old.items) (result ∷ replies) }
    ensures turns { (job : Job) (jobs : List Job) → HasTurns (length queues.old.items) 0 (map (λ q. q.items) queues.old.items) (job ∷ jobs)
        → HasTurns (length queues.old.items) 0 (map (λ q. q.items) queues.new.items) jobs }
    ensures as_many { length queues.new.items ≡ length queues.old.items }
{
    let mut first = queues.pop_front().unwrap();
    let reply = first.pop_front().unwrap();
    queues.push_back_reserved(first);
    reply
}

/// Returns the replies of all queues in the order of the jobs. It is refused only if the list of all replies finds no
/// memory.
#[tactic(auto, using(crate::proofs::Turns::deals_none))]
pub(crate) fn in_order(
    alloc: Global,
    queues: &mut VecDeque<VecDeque<Reply>>,
    jobs: &[Arc<Statement>],
) -> Result<Vec<Reply>, AllocError>
    requires some { 0 < length queues.old.items }
    requires turns { HasTurns (length queues.old.items) 0 (map (λ q. q.items) queues.old.items) (map arc_value jobs.now) }
    ensures dealt { IfOk result (λ replies. Deals (length queues.old.items) 0 (map (λ q. q.items) queues.old.items) replies.items) }
    ensures in_all { IfOk result (λ replies. length replies.items ≡ length jobs.now) }
{
    let mut replies = Vec::with_capacity(alloc, jobs.len())?;
    for _job in jobs {
        replies.push_reserved(next_reply(queues));
    }
    Ok(replies)
}
