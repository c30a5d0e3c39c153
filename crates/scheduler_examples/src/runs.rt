// Runs of two pipelines, and the choices among them.

ghost use Rattle.std.specs.Prelude.{◌≡◌};

use exp_runs::{Run, Runs, Status};
use std::alloc::Global;
use std::process::Abort;
use std::test::Fail;

fn run(rid: u64, pipeline: u32, priority: i64, due: u64, status: Status) -> Run {
    Run {
        rid,
        pipeline,
        priority,
        due,
        flush: false,
        experiment: 0,
        pos: 0,
        terminate: false,
        doomed: false,
        status,
    }
}

// Adds a run, for which there is memory.
fn add(rt: &impl Abort, alloc: Global, runs: &mut Runs, run: Run)
    requires { runs.old.pipelines ≡ 2 }
    ensures { runs.new.pipelines ≡ 2 }
{
    assert!(rt; runs.get(run.rid).is_none() && run.pipeline < 2);
    let added = runs.add(alloc, run);
    assert!(rt; added.is_ok());
}

#[test]
fn priority_due_date_and_number_decide(rt: HostRuntime) -> Result<(), Fail> {
    let alloc = rt.alloc();
    let mut runs = Runs::new(alloc, 2)?;
    add(&rt, alloc, &mut runs, run(0, 0, 1, 0, Status::Pending));
    add(&rt, alloc, &mut runs, run(1, 0, 2, 10, Status::Pending));
    add(&rt, alloc, &mut runs, run(2, 0, 2, 5, Status::Pending));
    add(&rt, alloc, &mut runs, run(3, 1, 9, 0, Status::Pending));
    add(&rt, alloc, &mut runs, run(4, 0, 0, 0, Status::RunDone));
    add(&rt, alloc, &mut runs, run(5, 0, 0, 0, Status::RunDone));
    let choices = [
        (0, 0, Some(0)),
        (0, 4, Some(0)),
        (0, 5, Some(2)),
        (0, 10, Some(2)),
        (1, 0, Some(3)),
    ];
    for (pipeline, clock, due) in choices {
        assert_eq!(rt;
            runs.best_pending(pipeline, clock),
            due,
            "{pipeline} at {clock}"
        );
    }
    assert_eq!(rt; runs.best_done(0), Some(4));
    assert_eq!(rt; runs.best_done(1), None);
    assert_eq!(rt; runs.best_prepared(0), None);
    assert!(rt; runs.get(0).is_some());
    assert!(rt; !runs.higher_due(0, 4) && runs.higher_due(0, 5));
    assert!(rt; runs.get(2).is_some());
    runs.set_status(alloc, 2, Status::Preparing)?;
    assert!(rt; runs.get(0).is_some());
    assert!(rt; runs.higher_due(0, 0));
    let copy = runs.copy(alloc)?;
    assert!(rt; copy.items() == runs.items() && copy.len() == 6);
    Ok(())
}
