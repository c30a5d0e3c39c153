// That the rules of types and the checker's verdict agree, and what follows.

ghost use Rattle.std.specs.Prelude.{◌≡◌, ◌↔◌, ℕ, ◌≤◌, Some, slice_get};
ghost use Rattle.kern_syntax.specs.Tree.{Bytes, Expression, Statement, Block, Otherwise, Handlers, FunctionTree, ProgramTree};
ghost use Rattle.kern_calls.specs.declared.types.ValueType.{ValueType};
ghost use Rattle.kern_calls.specs.Calls.{look_up};
ghost use Rattle.kern_calls.specs.Types.{Names, Scope, function_named, names_of, scope_of, type_of};
ghost use Rattle.kern_expression_types.specs.declared.place.Given.{Given};
ghost use Rattle.kern_expression_types.specs.declared.place.Given.TheVariants.{Typed};
ghost use Rattle.kern_expression_types.specs.declared.place.Place.{Place};
ghost use Rattle.kern_expression_types.specs.Before.{Functions};
ghost use Rattle.kern_expression_types.specs.Expressions.{expression_verdict};
ghost use Rattle.kern_expression_types.specs.Verdicts.{well};
ghost use Rattle.kern_types.specs.Programs.{IsTyped, place_of_function};
ghost use Rattle.kern_types.specs.Statements.{block_verdict};
ghost use Rattle.kern_judgement.specs.Expressions.{HasType};
ghost use Rattle.kern_judgement.specs.Fitting.{Standing, standing_of};
ghost use Rattle.kern_judgement.specs.Programs.{IsTypedBody, IsTypedByRules, functions_at};
ghost use Rattle.kern_judgement.specs.Statements.{IsTypedBlock, IsTypedStatement, AreTypedBranches, AreTypedHandlers};
ghost use Rattle.kern_judgement.specs.Told.{TellsNames, TellsFunctions};

/// An expression gives by the rules what the checker's verdict finds, at every place and behind all names.
pub fn expressions_are_typed_as_judged()
    ensures { (functions : Functions) (place : Place) (names : Names) (e : Expression) (g : Given)
        → HasType functions (standing_of place) names e g ↔ (expression_verdict functions place names e ≡ well g) }
{}

/// A block leaves by the rules the names that the checker's verdict finds, at every place and behind all names.
pub fn blocks_are_typed_as_judged()
    ensures { (functions : Functions) (place : Place) (names : Names) (b : Block) (after : Names)
        → IsTypedBlock functions (standing_of place) names b after ↔ (block_verdict functions b place names ≡ well after) }
{}

/// A program is typed by the rules exactly where the checker's verdict has no fault.
pub fn programs_are_typed_as_judged()
    ensures { (program : ProgramTree) → IsTypedByRules program ↔ IsTyped program }
{}

/// An expression has one type at most.
pub fn types_are_unique()
    ensures { (functions : Functions) (here : Standing) (names : Names) (e : Expression) (g h : Given)
        → HasType functions here names e g → HasType functions here names e h → g ≡ h }
{}

/// The type that `type_of` tells of an expression is the one that it has by the rules, also behind more names.
pub fn types_are_those_told()
    ensures { (functions : Functions) (here : Standing) (names : Names) (e : Expression) (t : ValueType) (scope : Scope)
        → HasType functions here names e (Typed t) → TellsNames names scope → TellsFunctions functions scope → type_of scope e ≡ t }
{}

/// A function of a typed program has by the rules the names that `names_of` tells of it (`typed`), and no others (`only`).
pub fn names_are_those_told()
    ensures typed { (program : ProgramTree) (k : ℕ) (f : FunctionTree)
        → IsTypedByRules program → slice_get program k ≡ Some f → IsTypedBody (functions_at program k) f (names_of program f) }
    ensures only { (program : ProgramTree) (k : ℕ) (f : FunctionTree) (after : Names)
        → IsTypedBody (functions_at program k) f after → names_of program f ≡ after }
{}

/// What is known of a name behind which a block stands, or a statement, further branches or handlers, stays known behind it.
pub fn names_only_grow()
    ensures blocks { (functions : Functions) (here : Standing) (names : Names) (b : Block) (after : Names) (x : Bytes) (t : ValueType)
        → IsTypedBlock functions here names b after → look_up names x ≡ Some t → look_up after x ≡ Some t }
    ensures statements { (functions : Functions) (here : Standing) (names : Names) (s : Statement) (after : Names) (x : Bytes) (t : ValueType)
        → IsTypedStatement functions here names s after → look_up names x ≡ Some t → look_up after x ≡ Some t }
    ensures branches { (functions : Functions) (here : Standing) (names : Names) (rest : Otherwise) (after : Names) (x : Bytes) (t : ValueType)
        → AreTypedBranches functions here names rest after → look_up names x ≡ Some t → look_up after x ≡ Some t }
    ensures handlers { (functions : Functions) (here : Standing) (names : Names) (handlers : Handlers) (after : Names) (x : Bytes) (t : ValueType)
        → AreTypedHandlers functions here names handlers after → look_up names x ≡ Some t → look_up after x ≡ Some t }
{}

/// A function that may be called stands at a place of the program, not behind the caller's, and has the name that it is called by.
/// In a typed program the function at each place is the one that its name finds, and this is the only place of the name.
pub fn functions_have_one_place()
    ensures there { (program : ProgramTree) (k : ℕ) (x : Bytes) (g : FunctionTree)
        → function_named (functions_at program k).callable x ≡ Some g → (j : ℕ) × (j ≤ k) × (slice_get program j ≡ Some g) × (g.name ≡ x) }
    ensures found { (program : ProgramTree) (j : ℕ) (g : FunctionTree)
        → IsTypedByRules program → slice_get program j ≡ Some g
        → (function_named program g.name ≡ Some g) × (place_of_function program g.name ≡ Some j) }
{}

/// A scope of the whole program tells the same of each function that the one at a place may call.
pub fn earlier_functions_are_told()
    ensures { (program : ProgramTree) (k : ℕ) (names : Names) → TellsFunctions (functions_at program k) (scope_of program names) }
{}
