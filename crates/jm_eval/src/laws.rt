ghost use Rattle.std.specs.Prelude.{◌≡◌, ℕ, true, List, Option};
ghost use Rattle.jm_property.specs.Properties.{is_settable};
ghost use Rattle.jm_tree.specs.declared.tree.Tree.{Tree};
ghost use Rattle.jm_eval.specs.Laws.{AreNegations, BetweenIsTwoComparisons, InIsEqualities, IsOneIdentifier};
ghost use Rattle.jm_eval.specs.Values.{Value};

/// The law of BETWEEN: it is two comparisons joined by AND, and NOT BETWEEN is two comparisons joined
/// by OR (Jakarta Messaging 3.1, section 3.8.1; for operands of unlike types ours).
pub fn law_between()
    ensures { (view : List ℕ → Value) (operand low high : Tree) → BetweenIsTwoComparisons view operand low high }
{}

/// The law of IN: it is the equalities with each member of the list, joined by OR (Jakarta Messaging
/// 3.1, section 3.8.1).
pub fn law_in()
    ensures { (view : List ℕ → Value) (name first : List ℕ) (rest : List (List ℕ)) → InIsEqualities view name first rest }
{}

/// The law of NOT IN, NOT LIKE and IS NOT NULL: each is the NOT of the form without NOT (Jakarta
/// Messaging 3.1, section 3.8.1).
pub fn law_negations()
    ensures { (view : List ℕ → Value) (name pattern : List ℕ) (list : List (List ℕ)) (escape : Option ℕ) → AreNegations view name pattern list escape }
{}

/// The law of names: a name that a client may set is one identifier of a selector, so that each property
/// can be asked for (Jakarta Messaging 3.1, sections 3.5.1 and 3.8.1.1).
pub fn law_names()
    ensures { (name : List ℕ) → is_settable name ≡ true → IsOneIdentifier name }
{}
