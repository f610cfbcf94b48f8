// Calls carried out on any store, one after the other.
ghost use Rattle.std.specs.Prelude.{◌≡◌, MatchResult};
ghost use Rattle.store.specs.Replays.{Replayed};

use crate::calls::{Call, Outcome};
use crate::deque_store::DequeStore;
use crate::replayer::Replayer;
use crate::reservations::Held;
use std::alloc::{AllocError, Global};

/// Carries out every call in turn, and answers each.
pub fn replay<T: Copy, S: DequeStore<T>>(
    heap: Global,
    store: &mut S,
    slots: &mut [Option<Held>],
    calls: &[Call<T>],
) -> Result<Vec<Outcome<T>>, AllocError>
    ensures { MatchResult result (λ answers. Replayed S.meaning S.goes S.grows store.old slots.old calls.now answers.items store.new slots.new) (λ _. (store.new ≡ store.old) × (slots.new ≡ slots.old)) }
{
    let mut answers = Vec::with_capacity(heap, calls.len())?;
    let mut replayer = Replayer { store, slots };
    for call in calls {
        let answer = replayer.carry_out(*call);
        answers.push_reserved(answer);
    }
    Ok(answers)
}
