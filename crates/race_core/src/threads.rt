// Workers on threads.
ghost use Rattle.std.specs.Prelude.{◌≡◌, ℕ, [], All, IfOk, length};
ghost use Rattle.race_core.specs.Calls.{AreAllowed};
ghost use Rattle.race_core.specs.Threads.{AreEach, IsDone};
ghost use Rattle.race_core.specs.Worker.{HasHappened, MayWork, RestsFor, history_of};
ghost use Rattle.step_desk.specs.Numbers.{Answers};
ghost use Rattle.step_desk.specs.Steps.{joined};

use crate::gate::Gate;
use crate::worker::{Done, Job, work};
use expiring_map::Memory;
use std::alloc::Global;
use std::sync::Wait;
use std::thread;
use std::thread::Threads;
use step_desk::{Desk, Pass, Seat};

/// Runs the workers, each on a thread of its own. What they leave stands in the order of the jobs. Where no thread can be made
/// they run one after another; none leaves a lock to the next, so each goes on. That they ran at once is not promised.
pub fn work_all<R: Threads + Wait + Sync, G: Gate + Sync>(
    rt: &R,
    alloc: Global,
    gate: &G,
    desk: &Desk,
    jobs: Vec<Job>,
) -> Result<Vec<Done>, Memory>
    requires desk { All (λ job. job.pass.table ≡ desk.now.table) jobs.items }
    requires pass { All (λ job. MayWork job.pass) jobs.items }
    requires fresh { All (λ job. (told job.handler ≡ []) × (changes_told job.handler ≡ [])) jobs.items }
    requires allowed { All (λ job. AreAllowed 0 job.calls.items) jobs.items }
    ensures each { IfOk result (λ dones. AreEach (λ job done. IsDone job.pass job.calls.items done) jobs.items dones.items) }
{
    thread::map_vec(
        rt,
        jobs,
        &|job: Job| -> Done
            requires desk { job.pass.table ≡ desk.now.table }
            requires pass { MayWork job.pass }
            requires fresh { (told job.handler ≡ []) × (changes_told job.handler ≡ []) }
            requires allowed { AreAllowed 0 job.calls.items }
            ensures { IsDone job.pass job.calls.items result }
        { work(rt, alloc, gate, desk, job) },
    )
    .map_err(|_| Memory)
}

/// Takes the pass of a worker into a seat of its desk. What is then seen is lawful, and goes on from what either had seen with
/// no change of an opener for which that one answered: so what was settled for it stays so.
pub fn take_in(seat: &mut Seat, pass: Pass)
    requires desk { pass.table ≡ seat.old.table }
    requires start { pass.view.about.start ≡ seat.old.view.about.start }
    requires lawful { HasHappened (history_of seat.old) }
    requires pass_lawful { HasHappened (history_of pass) }
    ensures still { seat.new ≡ record seat.old { view = joined seat.old.view pass.view } }
    ensures lawful { HasHappened (history_of seat.new) }
    ensures ours { (n : ℕ) → Answers seat.old.view n → RestsFor n (history_of seat.old) (history_of seat.new) }
    ensures theirs { (n : ℕ) → Answers pass.view n → RestsFor n (history_of pass) (history_of seat.new) }
{
    seat.join(pass);
}
