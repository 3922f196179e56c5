//! What came before the first entry of a store, and the numbers that a client is shown.
ghost use Rattle.std.specs.Prelude.{◌≡◌, IfOk, map, option_and_then};
ghost use Rattle.serde_json.specs.Data.{no_members, object};
ghost use Rattle.serde_json.specs.Find.{as_array, as_str, get};
ghost use Rattle.std.specs.Option.{option_map};
ghost use Rattle.serde_json.specs.View.{items_view, view};
ghost use Rattle.sno_durable.specs.Past.{higher, lower, named_row_shown, raised, row_shown, rows_shown, shown, version_in, version_of};
ghost use Rattle.sno_serve.specs.Replies.{with_further};

use serde_json::{Map, Value, put};
use std::alloc::{AllocError, Global};

/// What came before the first entry of a store: nothing, if the store was made of a document; otherwise the entries of the stores
/// that it goes on from.
#[derive(Drop)]
pub(crate) struct Past {
    /// How many entries there were.
    pub(crate) entries: u64,
    /// How many statements there were.
    pub(crate) statements: u32,
    /// The version that each text had then: an object of names and numbers. A text that isn't in it had version 0.
    pub(crate) versions: Value,
}

/// The sum of the two numbers, or the highest number if they are more than that.
pub(crate) fn higher(by: u64, number: u64) -> u64
    ensures { result ≡ higher by number }
{
    match number.checked_add(by) {
        Some(sum) => sum,
        None => u64::MAX,
    }
}

/// The number less `by`; if that is below 0, the highest number, which no text has as its version.
pub(crate) fn lower(by: u64, number: u64) -> u64
    ensures { result ≡ lower by number }
{
    if number < by { u64::MAX } else { number - by }
}

/// An object with one member more, or with another value of it.
pub(crate) fn with_further(
    alloc: Global,
    object: Value,
    key: &str,
    member: Value,
) -> Result<Value, AllocError>
    ensures { IfOk result (λ v. view v ≡ with_further key.now (view member) (view object)) }
{
    match object {
        Value::Object(members) => {
            let mut members = members;
            put(&mut members, alloc, key, member)?;
            Ok(Value::Object(members))
        }
        other => Ok(other),
    }
}

/// An object whose member of this name, if it is a whole number, is higher by `by`.
fn raised(alloc: Global, object: Value, key: &str, by: u64) -> Result<Value, AllocError>
    ensures { IfOk result (λ v. view v ≡ raised key.now by (view object)) }
{
    match object.get(key).and_then(Value::as_u64) {
        None => Ok(object),
        Some(number) => with_further(alloc, object, key, Value::from(higher(by, number))),
    }
}

/// The list of this name that an object has, if it has one.
fn list_in<'v>(object: &'v Value, list: &str) -> Option<&'v Vec<Value>>
    ensures { option_map (λ v. items_view v.now.items) result ≡ option_and_then as_array (get list.now (view object.now)) }
{
    object.get(list).and_then(Value::as_array)
}

impl Past {
    /// Before a store that was made of a document there is nothing.
    pub(crate) fn nothing(alloc: Global) -> Past
        ensures numbers { (result.entries ≡ 0) × (result.statements ≡ 0) }
        ensures versions { view result.versions ≡ object no_members }
    {
        Past {
            entries: 0,
            statements: 0,
            versions: Value::Object(Map::new(alloc)),
        }
    }

    /// A copy.
    pub(crate) fn clone(&self) -> Result<Past, AllocError>
        ensures { IfOk result (λ p. (p.entries ≡ self.now.entries) × (p.statements ≡ self.now.statements) × (view p.versions ≡ view self.now.versions)) }
    {
        Ok(Past {
            entries: self.entries,
            statements: self.statements,
            versions: self.versions.clone()?,
        })
    }

    /// The version that the text of this name had; 0 if there was no such text.
    fn version_in(&self, name: &str) -> u64
        ensures { result ≡ version_in (view self.now.versions) name.now }
    {
        match self.versions.get(name).and_then(Value::as_u64) {
            None => 0,
            Some(version) => version,
        }
    }

    /// The same of a name that is a string of JSON, if it is there and is one.
    pub(crate) fn version_of(&self, name: Option<&Value>) -> u64
        ensures { result ≡ version_of (view self.now.versions) (option_and_then as_str (option_map (λ n. view n.now) name.entry)) }
    {
        match name.and_then(Value::as_str) {
            None => 0,
            Some(name) => self.version_in(name),
        }
    }

    /// An entry, or a text that had this version, as a client is shown it.
    fn row_shown(&self, alloc: Global, row: Value, version: u64) -> Result<Value, AllocError>
        ensures { IfOk result (λ v. view v ≡ row_shown self.now.entries version (view row)) }
    {
        let row = raised(alloc, row, "entry", self.entries)?;
        raised(alloc, row, "version", version)
    }

    /// An entry, or a text, whose name is a member, as a client is shown it.
    fn named_row_shown(&self, alloc: Global, row: &Value, key: &str) -> Result<Value, AllocError>
        ensures { IfOk result (λ v. view v ≡ named_row_shown self.now.entries (view self.now.versions) key.now (view row.now)) }
    {
        let version = self.version_of(row.get(key));
        let copy = row.clone()?;
        self.row_shown(alloc, copy, version)
    }

    /// Rows of a list as a client is shown them.
    fn items_shown(
        &self,
        alloc: Global,
        rows: &[Value],
        key: &str,
    ) -> Result<Vec<Value>, AllocError>
        ensures { IfOk result (λ v. map view v.items ≡ map (λ r. named_row_shown self.now.entries (view self.now.versions) key.now (view r)) rows.now) }
    {
        let mut shown = Vec::with_capacity(alloc, rows.len())?;
        for row in rows {
            shown.push(self.named_row_shown(alloc, row, key)?)?;
        }
        Ok(shown)
    }

    /// An object whose list of this name, if it has one, is as a client is shown it.
    fn rows_shown(
        &self,
        alloc: Global,
        object: Value,
        list: &str,
        key: &str,
    ) -> Result<Value, AllocError>
        ensures { IfOk result (λ v. view v ≡ rows_shown self.now.entries (view self.now.versions) list.now key.now (view object)) }
    {
        let rows = match list_in(&object, list) {
            None => return Ok(object),
            Some(rows) => self.items_shown(alloc, rows, key)?,
        };
        let shown = with_further(alloc, object, list, Value::Array(rows))?;
        Ok(shown)
    }

    /// A reply about a text that had this version, as a client is shown it: indices and versions go on from what came before. A
    /// reply that isn't about one text, and a listing, are shown in that way with the version 0.
    pub(crate) fn shown(
        &self,
        alloc: Global,
        reply: Value,
        version: u64,
    ) -> Result<Value, AllocError>
        ensures { IfOk result (λ v. view v ≡ shown self.now.entries (view self.now.versions) version (view reply)) }
    {
        if self.entries == 0 {
            return Ok(reply);
        }
        let reply = self.row_shown(alloc, reply, version)?;
        let reply = self.rows_shown(alloc, reply, "entries", "text")?;
        self.rows_shown(alloc, reply, "texts", "name")
    }
}
