// Sessions of tests.

ghost use Rattle.std.specs.Prelude.{IfOk, IsTrue};
ghost use Rattle.exp_model.specs.Sessions.{is_session};

use exp_json::read_session;
use exp_model::Session;
use std::alloc::Global;
use std::test::Fail;

/// The session of a text.
pub fn session_of(alloc: Global, json: &str) -> Result<Session, Fail>
    ensures { IfOk result (λ session. IsTrue (is_session session)) }
{
    Ok(read_session(alloc, json.as_bytes())?)
}
