// What holds of every text.

ghost use Rattle.std.specs.Prelude.{◌≡◌, ℕ, ◌⊎◌, List, IsTrue};
ghost use Rattle.serde_json.specs.Data.{Data};
ghost use Rattle.exp_model.specs.declared.session.Session.{Session};
ghost use Rattle.exp_model.specs.Sessions.{is_session};
ghost use Rattle.json_fields.specs.declared.fault.FieldKind.{FieldKind};
ghost use Rattle.exp_json.specs.Texts.{HasFault, IsSessionText, IsValueOf};

/// Bytes that are a JSON value are a session or have a first fault.
pub fn a_value_has_an_answer()
    ensures { (bytes : List ℕ) (d : Data) → IsValueOf bytes d →
        ((s : Session) × IsSessionText bytes s) ⊎ ((path : List ℕ) × (kind : FieldKind) × HasFault bytes path kind) }
{}

/// No bytes are a session and have a fault.
pub fn no_session_has_a_fault()
    ensures { (bytes : List ℕ) (s : Session) (path : List ℕ) (kind : FieldKind) → IsSessionText bytes s → ¬ HasFault bytes path kind }
{}

/// No bytes are two sessions.
pub fn one_session()
    ensures { (bytes : List ℕ) (s t : Session) → IsSessionText bytes s → IsSessionText bytes t → s ≡ t }
{}

/// No bytes have two first faults.
pub fn one_first_fault()
    ensures { (bytes : List ℕ) (path other_path : List ℕ) (kind other_kind : FieldKind) →
        HasFault bytes path kind → HasFault bytes other_path other_kind → (path ≡ other_path) × (kind ≡ other_kind) }
{}

/// A session that is read keeps to what one that is served keeps to.
pub fn what_is_read_can_be_served()
    ensures { (bytes : List ℕ) (s : Session) → IsSessionText bytes s → IsTrue (is_session s) }
{}
