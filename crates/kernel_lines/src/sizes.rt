// How many instructions stand round the parts of a statement.

ghost use Rattle.std.specs.Prelude.{◌≡◌};
ghost use Rattle.kern_syntax.specs.TreeOf.{block_of, branches_of};
ghost use Rattle.code_forms.specs.Setting.{Setting};
ghost use Rattle.code_forms.specs.Sizes.{exit_size, has_second, parallel_begin_size};

use core_code_sizes::has_second;
use kern_syntax::{Block, Elif};

/// How many instructions go past what follows a branch: one, if a branch or an `else` follows.
pub fn exit_size(branches: &[Elif], last: &Option<Block>) -> u32
    ensures { (setting : Setting) → result ≡ exit_size setting (branches_of branches.now last.now) }
{
    if branches.is_empty() {
        u32::from(last.is_some())
    } else {
        1
    }
}

/// How many instructions begin a parallel block.
pub fn parallel_begin_size(body: &Block) -> u32
    ensures { result ≡ parallel_begin_size (has_second (block_of body.now)) }
{
    if has_second(&body.statements) { 4 } else { 2 }
}
