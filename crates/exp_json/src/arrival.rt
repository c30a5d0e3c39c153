// The arrivals of a session.

ghost use Rattle.std.specs.Prelude.{◌≡◌, List};
ghost use Rattle.std.specs.List.{count_by};
ghost use Rattle.limits.specs.Limits.{most_arrivals};
ghost use Rattle.serde_json.specs.View.{view};
ghost use Rattle.exp_model.specs.declared.arrival.Arrival.{Arrival};
ghost use Rattle.exp_model.specs.Sessions.{submits};
ghost use Rattle.json_fields.specs.Answers.{Gives};
ghost use Rattle.json_fields.specs.Lists.{listed};
ghost use Rattle.json_fields.specs.Objects.{first_there, only_known};
ghost use Rattle.exp_json.specs.declared.around.Around.{Around};
ghost use Rattle.exp_json.specs.Arrivals.{arrival, clock_field, may_arrive, not_below, order_key, order_table, orders};

use crate::around::Around;
use crate::list::{ReadItem, listed};
use crate::submission::submission;
use exp_model::{Arrival, ArrivalAct, ArrivalList};
use json_fields::{
    FieldKind, Stop, an_object, count, demand, fault_here, is_there, needed, only_known, within_key,
};
use limits::{LAST_CLOCK, MOST_ARRIVALS, MOST_RUNS};
use serde_json::Value;
use std::alloc::Global;

/// What arrives.
#[derive(Clone, Copy, Debug, PartialEq, Eq)]
pub enum Order {
    Submit,
    Delete,
    Terminate,
}

// What arrives: by the first of the keys that is there.
fn order_of(value: &Value) -> Option<Order>
    ensures { result ≡ first_there order_key orders (view value.now) }
{
    if is_there(value, "submit") {
        Some(Order::Submit)
    } else if is_there(value, "delete") {
        Some(Order::Delete)
    } else if is_there(value, "terminate") {
        Some(Order::Terminate)
    } else {
        None
    }
}

fn submits(arrival: &Arrival) -> bool
    ensures { result ≡ submits arrival.now }
{
    match arrival.act {
        ArrivalAct::Submit(_) => true,
        ArrivalAct::Delete { .. } | ArrivalAct::Terminate { .. } => false,
    }
}

// How many submit.
fn submissions(before: &[Arrival]) -> usize
    ensures { result ≡ count_by submits before.now }
{
    let mut many = 0usize;
    for arrival in before {
        if submits(arrival) {
            many += 1;
        }
    }
    many
}

// No more arrivals submit than there may be runs.
fn may_arrive(alloc: Global, before: &[Arrival], order: Order) -> Result<(), Stop>
    ensures { Gives result (may_arrive before.now order) }
{
    match order {
        Order::Submit => {
            let has_room = (submissions(before) as u64) < MOST_RUNS;
            demand(alloc, has_room, FieldKind::Range)
        }
        Order::Delete | Order::Terminate => Ok(()),
    }
}

// The clock isn't below that of the last arrival.
fn not_below(before: &[Arrival], clock: u64) -> bool
    ensures { result ≡ not_below before.now clock }
{
    match before.last() {
        None => true,
        Some(last) => last.at <= clock,
    }
}

// All keys have to be those of the order.
fn only_order_keys(alloc: Global, value: &Value, order: Order) -> Result<(), Stop>
    ensures { (around : Around) (before : List Arrival) → Gives result (only_known (order_table around before order).keys (view value.now)) }
{
    match order {
        Order::Submit => only_known(alloc, value, &["at", "submit"]),
        Order::Delete => only_known(alloc, value, &["at", "delete"]),
        Order::Terminate => only_known(alloc, value, &["at", "terminate"]),
    }
}

// The clock of an arrival, and then its order among the arrivals.
fn clock(alloc: Global, before: &[Arrival], value: &Value) -> Result<u64, Stop>
    ensures { Gives result ((clock_field before.now).reading (view value.now)) }
{
    let given = needed(alloc, value, "at")?;
    let clock = within_key(alloc, "at", count(alloc, given, 0, LAST_CLOCK))?;
    demand(alloc, not_below(before, clock), FieldKind::Order)?;
    Ok(clock)
}

// The fields of an order.
fn fields_of(
    alloc: Global,
    around: &Around,
    before: &[Arrival],
    order: Order,
    value: &Value,
) -> Result<Arrival, Stop>
    ensures { Gives result ((order_table around.now before.now order).fields (view value.now)) }
{
    let at = clock(alloc, before, value)?;
    let act = match order {
        Order::Submit => {
            let given = needed(alloc, value, "submit")?;
            let submitted = within_key(alloc, "submit", submission(alloc, around, given))?;
            ArrivalAct::Submit(submitted)
        }
        Order::Delete => {
            let given = needed(alloc, value, "delete")?;
            let rid = within_key(alloc, "delete", count(alloc, given, 0, MOST_RUNS - 1))?;
            ArrivalAct::Delete { rid }
        }
        Order::Terminate => {
            let given = needed(alloc, value, "terminate")?;
            let rid = within_key(alloc, "terminate", count(alloc, given, 0, MOST_RUNS - 1))?;
            ArrivalAct::Terminate { rid }
        }
    };
    Ok(Arrival { at, act })
}

// An arrival behind those before it.
fn arrival(
    alloc: Global,
    around: &Around,
    before: &[Arrival],
    value: &Value,
) -> Result<Arrival, Stop>
    ensures { Gives result (arrival around.now before.now (view value.now)) }
{
    an_object(alloc, value)?;
    let Some(order) = order_of(value) else {
        return Err(fault_here(alloc, FieldKind::Missing));
    };
    may_arrive(alloc, before, order)?;
    only_order_keys(alloc, value, order)?;
    fields_of(alloc, around, before, order, value)
}

impl ReadItem for Arrival {
    ghost use Rattle.exp_json.specs.Arrivals.{arrival};

    ghost reading = { arrival };

    fn read(
        alloc: Global,
        around: &Around,
        before: &[Arrival],
        value: &Value,
    ) -> Result<Arrival, Stop> {
        arrival(alloc, around, before, value)
    }
}

/// The arrivals of a session.
pub fn arrivals(alloc: Global, around: &Around, value: &Value) -> Result<ArrivalList, Stop>
    ensures { Gives result (listed 0 most_arrivals (arrival around.now) (view value.now)) }
{
    Ok(ArrivalList::of(listed(alloc, around, value, 0, MOST_ARRIVALS)?))
}
