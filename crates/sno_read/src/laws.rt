//! Laws of the grammars: a text spells at most one tree, or one object.
ghost use Rattle.sno_read.specs.Laws.{MemoryIsNoFault, MemoryIsNoRuleFault, OneObject, OneRuleObject, OneRuleTree, OneTree};

/// No text spells two trees.
pub fn one_tree()
    ensures { OneTree }
{}

/// No text spells two objects.
pub fn one_object()
    ensures { OneObject }
{}

/// No text has the fault `Memory`.
pub fn memory_is_no_fault()
    ensures { MemoryIsNoFault }
{}

/// No text of a rule spells two trees.
pub fn one_rule_tree()
    ensures { OneRuleTree }
{}

/// No text of a rule spells two objects.
pub fn one_rule_object()
    ensures { OneRuleObject }
{}

/// No text of a rule has the fault `Memory`.
pub fn memory_is_no_rule_fault()
    ensures { MemoryIsNoRuleFault }
{}
