// What holds of every text.

ghost use Rattle.std.specs.Prelude.{◌≡◌};
ghost use Rattle.kern_syntax.specs.Tree.{Bytes, ProgramTree};
ghost use Rattle.kern_accepted.specs.declared.end.Refusal.{Refusal};
ghost use Rattle.kern_accepted.specs.Refusals.{IsRefusedFor};
ghost use Rattle.kern_accepted.specs.Texts.{IsNoKernelText, IsTextOf};

/// A text has at most one program.
pub fn a_text_has_one_program()
    ensures { (text : Bytes) (one other : ProgramTree) → IsTextOf text one → IsTextOf text other → one ≡ other }
{}

/// A text that there is a reason to refuse is no accepted kernel's.
pub fn no_kernel_is_refused()
    ensures { (text : Bytes) (refusal : Refusal) → IsRefusedFor text refusal → IsNoKernelText text }
{}
