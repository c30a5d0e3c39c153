// What steps do to datasets.

ghost use Rattle.std.specs.Prelude.{◌≡◌, IfOk, OnOk};
ghost use Rattle.dataset_db.specs.Datasets.{datasets_after, value_of};
ghost use Rattle.sched_state.specs.Datasets.{append_to, changes_by, kernel_changes, plain_flags, stage, sum_into};
ghost use Rattle.sched_state.specs.Boards.{HasStored, IsStored};

use crate::entry::DataSet;
use dataset_db::{AppendEnd, Datasets, Flags};
use exp_model::HostStep;
use rtio_types::{Name, Value};
use std::alloc::{AllocError, Global};

// What is set without a word on its flags is archived.
fn plain_flags() -> Flags
    ensures { result ≡ plain_flags }
{
    Flags {
        broadcast: false,
        persist: false,
        archive: true,
    }
}

// Appends an item, where the name has a list.
fn append(
    alloc: Global,
    datasets: &mut Datasets,
    name: &Name,
    item: i64,
) -> Result<bool, AllocError>
    ensures { IfOk result (λ fine. IsStored (append_to name.now item (value_of datasets.old name.now)) fine datasets.old datasets.new) }
{
    match datasets.append(alloc, name, item) {
        Ok(()) => Ok(true),
        Err(AppendEnd::Memory) => Err(AllocError),
        Err(_) => Ok(false),
    }
}

// Sets a name to the sum of another, where that is there.
fn sum(alloc: Global, datasets: &mut Datasets, name: &Name, into: &Name) -> Result<bool, AllocError>
    ensures { IfOk result (λ fine. IsStored (sum_into into.now (value_of datasets.old name.now)) fine datasets.old datasets.new) }
{
    let Some(sum) = datasets.sum(name) else {
        return Ok(false);
    };
    match datasets.set(alloc, into, Value::Int(sum), plain_flags()) {
        Ok(()) => Ok(true),
        Err(_) => Err(AllocError),
    }
}

/// Does what a step does to datasets; false where it fails, and then they are as they were. A step of another kind leaves them.
pub fn store(alloc: Global, datasets: &mut Datasets, step: &HostStep) -> Result<bool, AllocError>
    ensures { IfOk result (λ fine. IsStored (changes_by step.now datasets.old) fine datasets.old datasets.new) }
{
    match step {
        HostStep::Set {
            name,
            value,
            broadcast,
            persist,
            archive,
        } => {
            let flags = Flags {
                broadcast: *broadcast,
                persist: *persist,
                archive: *archive,
            };
            match datasets.set(alloc, name, value.copy(alloc)?, flags) {
                Ok(()) => Ok(true),
                Err(_) => Err(AllocError),
            }
        }
        HostStep::Append { name, value } => append(alloc, datasets, name, *value),
        HostStep::Sum { name, into } => sum(alloc, datasets, name, into),
        _ => Ok(true),
    }
}

/// Does what steps do to datasets, up to the first that fails, and tells whether all were done.
pub fn store_all(
    alloc: Global,
    datasets: &mut Datasets,
    steps: &[HostStep],
) -> Result<bool, AllocError>
    ensures { IfOk result (λ fine. HasStored (stage steps.now datasets.old) fine datasets.old datasets.new) }
{
    for step in steps {
        if !store(alloc, datasets, step)? {
            return Ok(false);
        }
    }
    Ok(true)
}

/// Sets what a kernel set, in order.
pub fn store_sets(
    alloc: Global,
    datasets: &mut Datasets,
    sets: &[DataSet],
) -> Result<(), AllocError>
    ensures { OnOk result (datasets.new ≡ datasets_after (kernel_changes sets.now) datasets.old) }
{
    for set in sets {
        let value = set.value.copy(alloc)?;
        if datasets
            .set(alloc, &set.name, value, plain_flags())
            .is_err()
        {
            return Err(AllocError);
        }
    }
    Ok(())
}
