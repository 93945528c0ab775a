ghost use Rattle.std.specs.Prelude.{◌≡◌, ◌+◌, ◌<◌, ◌≤◌, All, IfOk, OnOk, vec_len};
ghost use Rattle.c11_claims.specs.Claims.{beyond};

use crate::{Claimer, Claims};
use std::alloc::{AllocError, Global};
use std::test::Fail;
use std::thread;
use std::thread::Threads;

// What a worker hands back: its seat, and the numbers below the count in the order in which it claimed them.
type Work = Result<(Claimer, Vec<u64>), AllocError>;

// Claims until none is left.
fn work(alloc: Global, claims: &Claims, mut claimer: Claimer) -> Work
    requires here { claimer.claims ≡ claims.now }
    requires going { beyond claims.now.count claimer.claimed ≡ 0 }
    ensures here { IfOk result (λ r. r.0.claims ≡ claims.now) }
    ensures shares { IfOk result (λ r. r.0.shares ≡ claimer.shares) }
    ensures ended { IfOk result (λ r. 0 < beyond claims.now.count r.0.claimed) }
{
    let mut numbers = Vec::new(alloc);
    while let Some(number) = claims.claim(&mut claimer) {
        numbers.push(number)?;
    }
    Ok((claimer, numbers))
}

// Workers with one share each claim side by side.
fn work_all<R: Threads + Sync>(
    rt: &R,
    alloc: Global,
    claims: &Claims,
    seats: Vec<Claimer>,
) -> Result<Vec<Work>, AllocError>
    requires { All (λ seat. (seat.claims ≡ claims.now) × (seat.shares ≡ 1) × (beyond claims.now.count seat.claimed ≡ 0)) seats.items }
    ensures len { IfOk result (λ done. vec_len done ≡ vec_len seats) }
    ensures each { IfOk result (λ done. All (λ w. IfOk w (λ r. (r.0.claims ≡ claims.now) × (r.0.shares ≡ 1))) done.items) }
{
    thread::map_vec(rt, seats, &|seat: Claimer| work(alloc, claims, seat))
}

// Takes in all that workers with one share each hand back.
fn gather_all(
    claims: &Claims,
    claimer: &mut Claimer,
    numbers: &mut Vec<u64>,
    mut done: Vec<Work>,
) -> Result<(), AllocError>
    requires here { claimer.old.claims ≡ claims.now }
    requires each { All (λ w. IfOk w (λ r. (r.0.claims ≡ claims.now) × (r.0.shares ≡ 1))) done.items }
    ensures here { OnOk result (claimer.new.claims ≡ claims.now) }
    ensures shares { OnOk result (claimer.new.shares ≡ claimer.old.shares + vec_len done) }
    ensures claimed { OnOk result (beyond claims.now.count claimer.old.claimed ≤ beyond claims.now.count claimer.new.claimed) }
{
    while let Some(worker) = done.pop() {
        let (other, more) = worker?;
        claims.gather(claimer, other);
        numbers.extend_from_slice(more.as_slice())?;
    }
    Ok(())
}

#[test]
fn four_workers_claim_each_number_once(rt: HostRuntime) -> Result<(), Fail> {
    let alloc = rt.alloc();
    let (claims, mut first) = Claims::open(alloc, 300)?;
    let second = claims.another(&mut first);
    let third = claims.another(&mut first);
    let fourth = claims.another(&mut first);
    let seats = vec![in alloc; second, third, fourth]?;
    let done = work_all(&rt, alloc, &claims, seats)?;
    let (mut first, mut numbers) = work(alloc, &claims, first)?;
    gather_all(&claims, &mut first, &mut numbers, done)?;
    claims.close(first);
    numbers.sort()?;
    let wanted = (0..300).collect::<Vec<u64>>(alloc)?;
    assert_eq!(rt; numbers, wanted);
    Ok(())
}
