// What a kernel sets.

ghost use Rattle.std.specs.Prelude.{◌≡◌, ◌++◌, OnOk, option_to_list};
ghost use Rattle.lab_kernels.specs.Kernels.{set_by};

use rtio_types::Request;
use sched_state::DataSet;
use std::alloc::{AllocError, Global};

/// Keeps the dataset that a request sets, behind the others. The only error is want of memory.
pub fn keep_set(alloc: Global, sets: &mut Vec<DataSet>, request: &Request) -> Result<(), AllocError>
    ensures { OnOk result (sets.new.items ≡ sets.old.items ++ option_to_list (set_by request.now)) }
{
    if let Request::Data { name, value } = request {
        let value = value.copy(alloc)?;
        sets.push(DataSet { name: *name, value })?;
    }
    Ok(())
}
