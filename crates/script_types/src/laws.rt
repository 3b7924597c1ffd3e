//! What holds of all scripts, in the language's words.
ghost use Rattle.std.specs.Prelude.{◌≡◌, ℕ, Bool, List, Some, Err};
ghost use Rattle.cell_values.specs.declared.kind.Kind.{Kind};
ghost use Rattle.map_meaning.specs.declared.program.Program.{Program};
ghost use Rattle.script_syntax.specs.declared.tree.Script.{Script};
ghost use Rattle.script_types.specs.Answers.{IsProgramOf};
ghost use Rattle.script_types.specs.Checks.{passed};
ghost use Rattle.script_types.specs.Laws.{HasInputsFirst, IsFirstTold, IsFirstUse, IsLastAbove};
ghost use Rattle.script_types.specs.Names.{Use, role_of};
ghost use Rattle.script_types.specs.Statements.{kind_above};
ghost use Rattle.script_types.specs.declared.fault.MeaningFault.{MeaningFault};
ghost use Rattle.script_types.specs.declared.fault.MeaningKind.{MeaningKind};
ghost use Rattle.script_types.specs.declared.typed.Line.{Line};
ghost use Rattle.script_types.specs.declared.typed.UsedAs.{UsedAs};

/// A fault is told only where its test is the first that holds, at a node and in a script.
#[tactic(auto, using(crate::proofs::LawLemmas::first_told))]
pub fn the_first_fault_is_told()
    ensures at_a_node { (checks : List (MeaningKind × Bool)) (fault : MeaningKind) → passed {F = MeaningKind} {A = ℕ} checks 0 ≡ Err fault → IsFirstTold checks fault }
    ensures in_a_script { (checks : List (MeaningFault × Bool)) (fault : MeaningFault) → passed {F = MeaningFault} {A = ℕ} checks 0 ≡ Err fault → IsFirstTold checks fault }
{}

/// A name has the role of its first use.
pub fn a_role_is_that_of_the_first_use()
    ensures { (uses : List Use) (name : List ℕ) (role : UsedAs) → role_of uses name ≡ Some role → IsFirstUse uses name role }
{}

/// A name that statements assign has the kind that the last of them gave it.
pub fn a_kind_is_that_of_the_last_assignment_above()
    ensures { (lines : List Line) (name : List ℕ) (kind : Kind) → kind_above lines name ≡ Some kind → IsLastAbove lines name kind }
{}

/// The drain maps of a script's program that are inputs stand before those that its statements give.
pub fn drain_maps_of_inputs_stand_first()
    ensures { (script : Script) (lines : List Line) (program : Program) → IsProgramOf script lines program → HasInputsFirst program.drains }
{}
