ghost use Rattle.std.specs.Prelude.{◌≡◌, ◌↔◌, ℕ, List, Result};
ghost use Rattle.script_syntax.specs.declared.fault.SyntaxFault.{SyntaxFault};
ghost use Rattle.script_syntax.specs.declared.place.Mode.TheVariants.{Bindings};
ghost use Rattle.script_syntax.specs.declared.tree.Script.{Script};
ghost use Rattle.script_syntax.specs.Faults.{IsExact};
ghost use Rattle.script_syntax.specs.Grammar.{Derives};
ghost use Rattle.script_syntax.specs.Places.{first_place};
ghost use Rattle.script_syntax.specs.Tokens.{AreScriptTokens, Scanned};
ghost use Rattle.script_syntax.specs.inside.Reading.{tree_of};
ghost use Rattle.script_syntax.specs.inside.Scanning.{scan};
ghost use Rattle.script_syntax.specs.declared.token.Token.{Token};

/// A text has one list of tokens, with the place of a first byte that begins none where there is one: that which the
/// scanner finds.
pub fn one_list_of_tokens()
    ensures found { (text : List ℕ) → AreScriptTokens text (scan text 0 Bindings first_place) }
    ensures one { (text : List ℕ) (a b : Scanned) → AreScriptTokens text a → AreScriptTokens text b → a ≡ b }
{}

/// Tokens derive at most one tree.
pub fn one_tree()
    ensures { (ts : List Token) (a b : Script) → Derives ts a → Derives ts b → a ≡ b }
{}

/// `tree_of` gives the tree of each script and the first fault of each other text. A text has one tree or one first
/// fault, and not both.
pub fn one_outcome()
    ensures exact { (text : List ℕ) → IsExact text (tree_of text) }
    ensures one { (text : List ℕ) (a b : Result Script SyntaxFault) → IsExact text a → IsExact text b → a ≡ b }
{}
