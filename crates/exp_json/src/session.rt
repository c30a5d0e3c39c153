// Sessions.

ghost use Rattle.std.specs.Prelude.{◌≡◌, ℕ, ◌<◌, List, IsTrue, IsUtf8, IfOk, length};
ghost use Rattle.serde_json.specs.Data.{Data};
ghost use Rattle.serde_json.specs.View.{view};
ghost use Rattle.exp_model.specs.Sessions.{is_session};
ghost use Rattle.json_fields.specs.declared.fault.FieldKind.{FieldKind};
ghost use Rattle.json_fields.specs.Answers.{Gives};
ghost use Rattle.exp_json.specs.Sessions.{around_of, session, settings_table};
ghost use Rattle.exp_json.specs.Texts.{HasFault, IsSessionText, IsValueOf};

use crate::around::{Around, Stage};
use crate::arrival::arrivals;
use crate::experiment::{experiments, sources};
use crate::pipeline::pipelines;
use exp_model::{PathText, Session};
use json_fields::{
    FieldKind, Path, Stop, an_object, count_or, many, needed, only_known, path_text, within_key,
};
use limits::{
    DEFAULT_DEPTH, DEFAULT_HORIZON, DEFAULT_LANES, MOST_COST, MOST_DEPTH, MOST_LANES, MOST_WORKERS,
    STEP_BUDGET,
};
use serde_json::Value;
use std::alloc::Global;

/// Why bytes are no session.
#[derive(Debug, Drop)]
pub enum SessionFault {
    /// They are no JSON value, or one that nests deeper than 127 levels.
    Json,
    /// The first fault of the value, with the path to it.
    Field { path: PathText, kind: FieldKind },
    /// Want of memory.
    Memory,
}

/// The session that the bytes are; else their first fault. Want of memory is the answer only of bytes that are UTF-8
/// and not empty: others are refused even where there is none.
pub fn read_session(alloc: Global, bytes: &[u8]) -> Result<Session, SessionFault>
    ensures ok { IfOk result (λ s. IsSessionText bytes.now s) }
    ensures served { IfOk result (λ s. IsTrue (is_session s)) }
    ensures json { result ≡ Err SessionFault.Json → (d : Data) → ¬ IsValueOf bytes.now d }
    ensures field { (path : List ℕ) (kind : FieldKind) → result ≡ Err (SessionFault.Field path kind) → HasFault bytes.now path kind }
    ensures memory { result ≡ Err SessionFault.Memory → IsUtf8 bytes.now × (0 < length bytes.now) }
{
    let Ok(text) = std::str::from_utf8(bytes) else {
        return Err(SessionFault::Json);
    };
    if text.is_empty() {
        return Err(SessionFault::Json);
    }
    let value = match Value::from_str(alloc, text) {
        Ok(value) => value,
        Err(error) => {
            if error.is_memory() {
                return Err(SessionFault::Memory);
            }
            return Err(SessionFault::Json);
        }
    };
    match session(alloc, &value) {
        Ok(session) => Ok(session),
        Err(Stop::Memory) => Err(SessionFault::Memory),
        Err(Stop::Fault { path, kind }) => Err(field_fault(alloc, &path, kind)),
    }
}

// A fault with its path as text.
fn field_fault(alloc: Global, path: &Path, kind: FieldKind) -> SessionFault
    ensures { IsFieldFault path.now kind result }
{
    match path_text(alloc, "session", path.parts()) {
        Ok(text) => SessionFault::Field {
            path: PathText::of(text),
            kind,
        },
        Err(_) => SessionFault::Memory,
    }
}

ghost use Rattle.exp_json.specs.Answers.{IsFieldFault};

// How long the lists of a session are as given.
fn around_of(value: &Value) -> Around
    ensures { result ≡ around_of (view value.now) }
{
    Around {
        stage: Stage::Run,
        sources: many(value, "sources"),
        experiments: many(value, "experiments"),
        pipelines: many(value, "pipelines"),
    }
}

// The numbers of a session.
#[derive(Clone, Copy, Debug, PartialEq, Eq)]
struct Settings {
    cost: u64,
    budget: u32,
    workers: u32,
    lanes: u32,
    depth: u32,
    horizon: u64,
}

// The numbers of a session, in the order of their table.
fn numbers(alloc: Global, value: &Value) -> Result<Settings, Stop>
    ensures { Gives result (settings_table.fields (view value.now)) }
{
    let cost = count_or(alloc, value, "cost", 0, 0, MOST_COST)?;
    let budget = count_or(alloc, value, "budget", STEP_BUDGET, 1, STEP_BUDGET)?;
    let workers = count_or(alloc, value, "workers", 1, 1, MOST_WORKERS)?;
    let lanes = count_or(alloc, value, "lanes", DEFAULT_LANES, 1, MOST_LANES)?;
    let depth = count_or(alloc, value, "depth", DEFAULT_DEPTH, 1, MOST_DEPTH)?;
    let horizon = count_or(alloc, value, "horizon", DEFAULT_HORIZON, 1, DEFAULT_HORIZON)?;
    Ok(Settings {
        cost,
        budget: budget as u32,
        workers: workers as u32,
        lanes: lanes as u32,
        depth: depth as u32,
        horizon,
    })
}

// All keys have to be those of a session.
fn only_session_keys(alloc: Global, value: &Value) -> Result<(), Stop>
    ensures { Gives result (only_known (session_table (around_of (view value.now))).keys (view value.now)) }
{
    let known = [
        "cost",
        "budget",
        "workers",
        "lanes",
        "depth",
        "horizon",
        "pipelines",
        "sources",
        "experiments",
        "arrivals",
    ];
    only_known(alloc, value, &known)
}

ghost use Rattle.json_fields.specs.Objects.{only_known};
ghost use Rattle.exp_json.specs.Sessions.{session_table};

// A session: its keys, and then its fields.
fn session(alloc: Global, value: &Value) -> Result<Session, Stop>
    ensures { Gives result (session (view value.now)) }
{
    an_object(alloc, value)?;
    only_session_keys(alloc, value)?;
    let around = around_of(value);
    fields(alloc, &around, value)
}

// The fields of a session: its numbers, and then its lists.
fn fields(alloc: Global, around: &Around, value: &Value) -> Result<Session, Stop>
    ensures { Gives result ((session_table around.now).fields (view value.now)) }
{
    let settings = numbers(alloc, value)?;
    let given = needed(alloc, value, "pipelines")?;
    let pipelines = within_key(alloc, "pipelines", pipelines(alloc, around, given))?;
    let given = needed(alloc, value, "sources")?;
    let sources = within_key(alloc, "sources", sources(alloc, around, given))?;
    let given = needed(alloc, value, "experiments")?;
    let experiments = within_key(alloc, "experiments", experiments(alloc, around, given))?;
    let given = needed(alloc, value, "arrivals")?;
    let arrivals = within_key(alloc, "arrivals", arrivals(alloc, around, given))?;
    Ok(Session {
        cost: settings.cost,
        budget: settings.budget,
        workers: settings.workers,
        lanes: settings.lanes,
        depth: settings.depth,
        horizon: settings.horizon,
        pipelines,
        sources,
        experiments,
        arrivals,
    })
}
