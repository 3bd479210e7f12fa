//! Two threads that drive one machine and meet, as in docs/work/threads.md.
ghost use Rattle.std.specs.Prelude.{◌≡◌, IfOk};
ghost use Rattle.machine_lock.specs.CallerKnowledge.{AreApart, NumbersApart, StartsWith};

use crate::fixtures::{booted, leave_all};
use instructions::Refusal;
use machine::Machine;
use machine_lock::{Ground, Naming, Seen, Shared};
use program_order::{Note, Snapshot};
use sequential::Entry;
use std::alloc::Global;
use std::marker::Brand;
use std::sync::Wait;
use std::test::Fail;
use std::thread::{Threads, join};

/// The answers of two issues.
type Twice = [Result<Option<Note>, Refusal>; 2];

/// What a thread has seen at its end, and the answers of its issues.
type Issues<K> = (Seen<K>, Twice);

/// The work of one thread: it issues twice, from what it has seen so far.
fn issue_twice<K: Naming, R: Wait>(rt: &R, shared: &Shared<K>, mut seen: Seen<K>) -> Issues<K> {
    let first = shared.issue(rt, &mut seen);
    let second = shared.issue(rt, &mut seen);
    (seen, [first, second])
}

/// Two callers that meet learn what neither could know alone: each has seen what the other had seen, no step was made
/// by both, and no reservation's number was returned to both.
fn meet<K: Naming>(shared: &Shared<K>, one: &mut Seen<K>, other: &mut Seen<K>)
    ensures one { StartsWith one.new.log other.old.log }
    ensures other { StartsWith other.new.log one.old.log }
    ensures apart { AreApart one.new.mine other.new.mine }
    ensures numbers { NumbersApart one.new other.new }
{
    shared.meet(one, other);
}

/// Takes a snapshot for one of two callers after they have met. It has everything that the other had seen.
fn snapshot_after_meeting<K: Naming, R: Wait>(
    rt: &R,
    shared: &Shared<K>,
    one: &mut Seen<K>,
    other: &mut Seen<K>,
) -> Result<Snapshot, Refusal>
    ensures { IfOk result (λ snapshot. StartsWith snapshot.log other.old.log) }
{
    meet(shared, one, other);
    shared.snapshot(rt, one)
}

/// Makes the first exchange, then two issues in each of two threads, which meet. Returns the answers, and a snapshot.
fn issue_by_two<K: Naming + Send + Sync, R: Threads + Wait + Sync>(
    rt: &R,
    shared: &Shared<K>,
    mut seen: Seen<K>,
) -> Result<([Twice; 2], Snapshot), Refusal> {
    shared.ask(rt, &mut seen, 0o40)?;
    shared.exchange(rt, &mut seen)?;
    let other = seen.split()?;
    let ((mut one, ones), (mut two, twos)) = join(
        rt,
        || issue_twice(rt, shared, seen),
        || issue_twice(rt, shared, other),
    );
    let snapshot = snapshot_after_meeting(rt, shared, &mut one, &mut two)?;
    Ok(([ones, twos], snapshot))
}

/// After the first exchange, each of two threads issues two of four passes.
fn two_threads<K: Naming + Send + Sync, R: Threads + Wait + Sync>(
    rt: &R,
    alloc: Global,
    ground: Ground,
    machine: Machine,
) -> Result<([Twice; 2], Snapshot), Refusal>
    requires { ground ≡ K.table }
{
    let (shared, seats, seen) = Shared::<K>::open(alloc, ground, machine)?;
    leave_all(seats);
    issue_by_two(rt, &shared, seen)
}

/// Whether the snapshot has the exchange and all four issues.
fn has_all(snapshot: &Snapshot) -> bool {
    snapshot.log().entries() == [Entry::Exchange(0o40), Entry::Issued(4)].as_slice()
}

#[test]
fn two_threads_meet(rt: HostRuntime) -> Result<(), Fail> {
    let machine = booted(rt.alloc(), &[(0o100, "46000460004600046000")])?;
    let ground = Ground::new(rt.alloc())?;
    let (answers, snapshot) = two_threads::<Brand, _>(&rt, rt.alloc(), ground, machine)?;
    assert!(rt; answers == [[Ok(None), Ok(None)], [Ok(None), Ok(None)]] && has_all(&snapshot));
    Ok(())
}
