//! A maker that counts its calls, at each capacity.

ghost use Rattle.std.specs.Prelude.{◌≡◌, ◌<◌, ◌^◌, sum, IfOk};
ghost use Rattle.sg_memo.specs.Answering.{Answers};

use crate::{Called, Kept, Makes, Memo, Question};
use sg_nat::Nats;
use std::alloc::{AllocError, Global};
use std::cell::Cell;
use std::process::Abort;
use std::test::Fail;

/// The sum of a list.
#[derive(Drop)]
struct SumQ;

impl Question for SumQ {
    type Answer = u64;

    ghost use Rattle.std.specs.Prelude.{◌≡◌, ◌<◌, ◌^◌, sum};
    ghost use Rattle.std.proofs.Common.{sym, ◌∙◌};

    ghost askable = { λ key. sum key < 2 ^ 64 };

    ghost is_answer = { λ key n. n ≡ sum key };

    ghost one_answer = { λ _ _ _ first second. first ∙ sym second };
}

/// How often what was asked for was made, by the memo's own count.
fn made_for<F: Makes<u64>>(
    rt: &impl Abort,
    alloc: Global,
    make: F,
    capacity: usize,
    asks: &[(u64, u64)],
) -> Result<u64, Fail>
    requires { Answers (λ key. sum key < 2 ^ 64) (λ key n. n ≡ sum key) (F.takes make) (F.gives make) }
{
    let mut memo: Memo<SumQ, F> = Memo::new(alloc, Kept::new(make), capacity)?;
    assert_eq!(rt; memo.capacity(), capacity);
    for (first, second) in asks {
        let Some(total) = first.checked_add(*second) else {
            continue;
        };
        let key = Nats::from_slice(alloc, &[*first, *second])?;
        let answer = memo.get(alloc, &key)?;
        assert_eq!(rt; *answer, total);
    }
    assert_eq!(rt; memo.asked(), asks.len() as u64);
    Ok(memo.made())
}

#[test]
fn what_is_made_is_counted(rt: HostRuntime) -> Result<(), Fail> {
    for (capacity, wanted) in [(0, 4), (1, 3), (2, 2)] {
        let calls = Cell::new(0u64);
        let counting = |_alloc: Global, key: &Nats| -> Result<u64, AllocError>
            requires { sum key.now < 2 ^ 64 }
            ensures { IfOk result (λ n. n ≡ sum key.now) }
        {
            calls.set(calls.get().wrapping_add(1));
            Ok(key.as_slice().iter().sum())
        };
        let made = made_for(
            &rt,
            rt.alloc(),
            Called { function: counting },
            capacity,
            &[(3, 5), (4, 5), (4, 5), (3, 5)],
        )?;
        assert_eq!(rt; made, wanted, "at capacity {capacity}");
        assert_eq!(rt; calls.get(), wanted, "at capacity {capacity}");
    }
    Ok(())
}
