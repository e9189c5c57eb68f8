//! One machine with one table of blocks, and what it answers to a script: what a run is held against. It has no code of the product: the functions below stand for
//! the laws that their contracts state.
#![tactic(auto)]

ghost use Rattle.std.specs.Prelude.{◌≡◌, []};
ghost use Rattle.one_machine.specs.Machine.{one_machine_text};
ghost use Rattle.one_machine.specs.Trees.{EachScriptKeepsTheTree};
ghost use Rattle.one_machine.specs.Worked.{script, text};

use file_plan::laws::calls_keep_the_tree;

/// A worked script, with calls on blocks and on files, as the one machine answers it.
pub fn a_worked_script_is_answered_so()
    ensures text { one_machine_text script [] ≡ text }
{}

/// Its table holds a file tree: of a script whose block calls write raw files alone, as the grammar has it, each call on files replies as the tree has it that the
/// table held before, and the table then holds the tree's change.
pub fn its_table_holds_a_tree()
    ensures tree { EachScriptKeepsTheTree }
{
    calls_keep_the_tree();
}
