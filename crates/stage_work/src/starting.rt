// What sessions are started for.

ghost use Rattle.sched_core.specs.Scheds.{HasCall};
ghost use Rattle.lab_kits.specs.Kits.{KitCall};
ghost use Rattle.stage_work.specs.Starting.{IsStartFor};

use exp_model::HostStep;
use lab_kits::Kit;
use rtio_core::StartOf;

/// What the session of a kernel's step is started for. Other steps have no session: their effect is the scheduler's.
pub(crate) fn start_for(kit: &Kit, rid: u64, pos: u32, step: HostStep) -> Option<StartOf>
    requires { HasCall KitCall kit.now step }
    ensures { IsStartFor kit.now rid pos step result }
{
    match step {
        HostStep::Kernel { name, args } => {
            let Some(function) = kit.function_of(name.items()) else {
                unreachable!()
            };
            Some(StartOf {
                source: kit.source,
                function,
                args,
                rid,
                pos,
            })
        }
        _ => None,
    }
}
