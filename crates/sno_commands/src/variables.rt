//! The variables of rules.

use sno_edit::EditRules;
use sno_pattern::{Name, Pattern};

/// Whether a match of the pattern can assign this variable. What its definitions assign is not looked at.
fn assigns(pattern: &Pattern, variable: &Name) -> bool {
    match pattern {
        Pattern::At(name) => name == variable,
        Pattern::Cond(part, name) | Pattern::Imm(part, name) => {
            name == variable || assigns(part, variable)
        }
        Pattern::Arbno(part) => assigns(part, variable),
        Pattern::Seq(first, second) | Pattern::Alt(first, second) => {
            assigns(first, variable) || assigns(second, variable)
        }
        _ => false,
    }
}

/// Whether a rule, or a definition for the rules, assigns the variable with this name.
pub(crate) fn has_variable(rules: &EditRules, name: &str) -> bool {
    let Some(variable) = Name::read(name.as_bytes()) else {
        return false;
    };
    rules.statements().iter().any(|statement| {
        let search = statement.search();
        assigns(search.pattern(), &variable)
            || search
                .rules()
                .bodies()
                .iter()
                .any(|body| assigns(body, &variable))
    })
}
