//! The texts that names represent in one statement.
ghost use Rattle.std.specs.Prelude.{◌≡◌, ◌++◌, [], IfOk, IfSome, length};
ghost use Rattle.std.specs.Option.{option_map};
ghost use Rattle.serde_json.specs.View.{view, members_view};
ghost use Rattle.sno_pattern.specs.NameList.{names_of};
ghost use Rattle.sno_pattern.specs.Texts.{text_of};
ghost use Rattle.sno_document.specs.Bound.{IsBound};
ghost use Rattle.sno_serve.specs.Binds.{bound_text, bound_member, bound_from, bound_in, bound_seen, pairs_seen, with_names};

use crate::BindFault;
use serde_json::{Map, Value};
use sno_pattern::{Name, Names, NamesFault, Text, TextFault};
use std::alloc::{AllocError, Global};

/// The characters of a text.
fn bound_text(alloc: Global, text: &str) -> Result<Result<Text, BindFault>, AllocError>
    ensures { IfOk result (λ t. t ≡ bound_text (text_of text.now)) }
{
    match Text::new(Vec::from_slice(alloc, text.as_bytes())?) {
        Ok(text) => Ok(Ok(text)),
        Err(TextFault::TooLong) => Ok(Err(BindFault::TooLong)),
        Err(TextFault::NonAscii(_)) => Ok(Err(BindFault::NonAscii)),
    }
}

/// A name with its text.
fn bound_member(
    alloc: Global,
    key: &str,
    value: &Value,
) -> Result<Result<(Name, Text), BindFault>, AllocError>
    ensures { IfOk result (λ m. m ≡ bound_member key.now (view value.now)) }
{
    let Some(text) = value.as_str() else {
        return Ok(Err(BindFault::Shape));
    };
    let Some(name) = Name::read(key.as_bytes()) else {
        return Ok(Err(BindFault::Name));
    };
    match bound_text(alloc, text)? {
        Ok(text) => Ok(Ok((name, text))),
        Err(fault) => Ok(Err(fault)),
    }
}

/// Names, each with a text that it represents.
#[derive(Drop)]
pub(crate) struct Pairs {
    pub(crate) names: Vec<Name>,
    pub(crate) texts: Vec<Text>,
}

/// The names of the definitions, and after them one for each of the texts.
#[derive(Drop)]
pub(crate) struct Bound {
    pub(crate) names: Names,
    pub(crate) texts: Vec<Text>,
}

/// The names and the texts of an object's members, in the order of their names' bytes.
fn pairs_in(
    alloc: Global,
    members: &Map<String, Value>,
) -> Result<Result<Pairs, BindFault>, AllocError>
    ensures pairs { IfOk result (λ p. pairs_seen p ≡ bound_from (record { names = []; texts = [] }) (members_view members.now.entries)) }
    ensures each { IfOk result (λ p. IfOk p (λ b. length b.names.items ≡ length b.texts.items)) }
{
    let mut pairs = Pairs {
        names: Vec::new(alloc),
        texts: Vec::new(alloc),
    };
    for (key, value) in members.iter() {
        match bound_member(alloc, key, value)? {
            Ok((name, text)) => {
                pairs.names.push(name)?;
                pairs.texts.push(text)?;
            }
            Err(fault) => return Ok(Err(fault)),
        }
    }
    Ok(Ok(pairs))
}

/// The names of the definitions, and these after them.
#[tactic(auto, using(crate::proofs::Rows::moved, crate::proofs::Rows::is_there))]
fn all_names(alloc: Global, defined: &Names, names: &[Name]) -> Result<Vec<Name>, AllocError>
    ensures { IfOk result (λ v. v.items ≡ defined.now ++ names.now) }
{
    let mut all = Vec::new(alloc);
    for place in 0..defined.len() {
        if let Some(name) = defined.get(place) {
            all.push(*name)?;
        }
    }
    all.extend_from_slice(names)?;
    Ok(all)
}

/// All names as those of definitions, with the texts of the last ones.
fn with_names(
    alloc: Global,
    names: &[Name],
    texts: Vec<Text>,
) -> Result<Result<Option<Bound>, BindFault>, AllocError>
    ensures bound { IfOk result (λ b. bound_seen b ≡ with_names texts.items (names_of names.now)) }
    ensures same { IfOk result (λ b. IfOk b (λ o. IfSome o (λ b. (b.names ≡ names.now) × (b.texts.items ≡ texts.items)))) }
{
    match Names::new(alloc, names) {
        Ok(names) => Ok(Ok(Some(Bound { names, texts }))),
        Err(NamesFault::TooMany) => Ok(Err(BindFault::TooMany)),
        Err(NamesFault::Reserved(_)) => Ok(Err(BindFault::Reserved)),
        Err(NamesFault::Duplicate(_)) => Ok(Err(BindFault::Duplicate)),
        Err(NamesFault::Memory) => Err(AllocError),
    }
}

/// What the member `bind` of a line says, if it is there.
pub(crate) fn bound_in(
    alloc: Global,
    defined: &Names,
    member: Option<&Value>,
) -> Result<Result<Option<Bound>, BindFault>, AllocError>
    ensures bound { IfOk result (λ b. bound_seen b ≡ bound_in defined.now (option_map (λ v. view v.now) member.entry)) }
    ensures names { IfOk result (λ b. IfOk b (λ o. IfSome o (λ b. IsBound defined.now b.names b.texts.items))) }
{
    let Some(member) = member else {
        return Ok(Ok(None));
    };
    let Some(members) = member.as_object() else {
        return Ok(Err(BindFault::Shape));
    };
    match pairs_in(alloc, members)? {
        Ok(Pairs { names, texts }) => {
            let all = all_names(alloc, defined, &names)?;
            with_names(alloc, &all, texts)
        }
        Err(fault) => Ok(Err(fault)),
    }
}
