//! Both ends of a new lane.
ghost use Rattle.std.specs.Prelude.{◌≡◌, ◌≤◌, [], IfOk};
ghost use Rattle.dag.specs.Bounds.{IsCapacity};
ghost use Rattle.lane.specs.Lanes.{put_of};

use crate::giving::Giving;
use crate::item::MarkLast;
use crate::sender::{Sender, most_staged};
use crate::taker::Taker;
use dag::NoMemory;
use rtrb::RingBuffer;
use std::alloc::Global;

/// Makes a lane that holds at most `capacity` items. The mark is an item.
///
/// ```rust
/// let (mut sender, mut taker) = lane::<u32>(rt.alloc(), 2)?;
/// assert!(rt; (sender.put(1), sender.put(2), sender.put(3)) == (Ok(()), Ok(()), Err(3)));
/// assert_eq!(rt; taker.take(), Some(Item::One(1)));
/// assert_eq!(rt; sender.put(3), Ok(()));
/// assert!(rt; !sender.mark());
/// assert_eq!(rt; taker.take(), Some(Item::One(2)));
/// assert!(rt; sender.mark());
/// assert_eq!(rt; taker.take(), Some(Item::One(3)));
/// assert_eq!(rt; taker.take(), Some(Item::Finish));
/// assert_eq!(rt; taker.take(), None);
/// ```
pub fn lane<T: Copy + Send>(
    alloc: Global,
    capacity: usize,
) -> Result<(Sender<T>, Taker<T>), NoMemory>
    requires { IsCapacity capacity }
    ensures lane { IfOk result (λ r. r.0.lane ≡ r.1.lane) }
    ensures empty { IfOk result (λ r. (put_of r.0 ≡ []) × (r.1.taken ≡ [])) }
    ensures capacity { IfOk result (λ r. (r.0.capacity ≡ capacity) × (r.1.capacity ≡ capacity)) }
    ensures room { IfOk result (λ r. r.0.room ≡ capacity) }
{
    let most = most_staged(capacity);
    let lists = capacity / most + 2;
    let Ok((ring, taking)) = RingBuffer::with_protocol::<Global, MarkLast>(alloc, capacity) else {
        return Err(NoMemory);
    };
    let Ok((units, taking_units)) = RingBuffer::<()>::new(alloc, capacity) else {
        return Err(NoMemory);
    };
    let Ok((mut giving_back, emptied)) = RingBuffer::new(alloc, lists + 2) else {
        return Err(NoMemory);
    };
    for _ in 0..lists {
        if giving_back.push(Vec::with_capacity(alloc, most)?).is_err() {
            return Err(NoMemory);
        }
    }
    let sender = Sender {
        giving: Giving {
            ring,
            units,
            emptied,
        },
        marked: false,
        staged: Vec::with_capacity(alloc, most)?,
        most,
        limit: 0,
        refusals: 0,
    };
    let taker = Taker {
        ring: taking,
        units: taking_units,
        emptied: giving_back,
        list: Vec::with_capacity(alloc, most)?,
        from: 0,
        at: 0,
        owed: 0,
        known: 0,
        last: false,
    };
    Ok((sender, taker))
}
