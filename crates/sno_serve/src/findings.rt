//! What is found in a statement that is only tried.
ghost use Rattle.std.specs.Prelude.{◌≡◌, IfOk, map, string_bytes};
ghost use Rattle.serde_json.specs.View.{view};
ghost use Rattle.sno_serve.specs.Replies.{finding_data, with_findings};

use serde_json::{Map, Value, put};
use sno_check::Warning;
use std::alloc::{AllocError, Global};

/// What is found in the statement with this number.
fn finding_value(alloc: Global, number: u32, warning: &Warning) -> Result<Value, AllocError>
    ensures { IfOk result (λ v. view v ≡ finding_data number (string_bytes warning.now.message)) }
{
    let place = format!(in alloc; "statement {number}")?;
    let message = Value::try_from_str(alloc, &warning.message)?;
    let mut members = Map::new(alloc);
    put(&mut members, alloc, "place", Value::String(place))?;
    put(&mut members, alloc, "message", message)?;
    Ok(Value::Object(members))
}

/// All that is found in the statement with this number.
fn finding_values(
    alloc: Global,
    number: u32,
    warnings: &[Warning],
) -> Result<Vec<Value>, AllocError>
    ensures { IfOk result (λ vs. map view vs.items ≡ map (finding_data number) (map (λ w. string_bytes w.message) warnings.now)) }
{
    let mut values = Vec::with_capacity(alloc, warnings.len())?;
    for warning in warnings {
        values.push(finding_value(alloc, number, warning)?)?;
    }
    Ok(values)
}

/// Returns the reply with what is found in the statement with this number, as `findings`. Refused only if memory runs out.
pub(crate) fn with_findings(
    alloc: Global,
    reply: Value,
    number: u32,
    warnings: &[Warning],
) -> Result<Value, AllocError>
    ensures { IfOk result (λ v. view v ≡ with_findings number (map (λ w. string_bytes w.message) warnings.now) (view reply)) }
{
    let findings = finding_values(alloc, number, warnings)?;
    match reply {
        Value::Object(members) => {
            let mut members = members;
            put(&mut members, alloc, "findings", Value::Array(findings))?;
            Ok(Value::Object(members))
        }
        other => Ok(other),
    }
}
