//! Statements for files.
ghost use Rattle.std.specs.Prelude.{◌≡◌, map, IfOk, IfSome, MatchOption, None, Some, true, false};
ghost use Rattle.std.specs.List.{list_all};
ghost use Rattle.std.specs.Option.{option_map};
ghost use Rattle.sno_read.specs.ByteParts.{part_of};
ghost use Rattle.sno_statement.specs.FileStatements.{is_plain, searching, with_object, with_object_and_repeat};
ghost use Rattle.sno_statement.specs.Statement.{IsLimit, IsOneWay, IsRepeat, with_all, with_limit, with_repeat};

use crate::Statement;
use sno_pattern::{ByteText, Text};
use sno_read::{ByteObject, BytePart, Object, Part};
use std::alloc::{AllocError, Global};
use std::marker::Model;

/// A statement that is performed on files: the literals of its object may have any bytes. The methods that read take no memory.
#[derive(Drop)]
pub struct FileStatement {
    search: Statement,
    object: Option<ByteObject>,
    repeat: Option<u32>,
}

impl Model for FileStatement {
    ghost use Rattle.std.specs.Prelude.{◌≡◌, IfSome, None};
    ghost use Rattle.sno_statement.specs.FileStatements.{with_object_and_repeat};
    ghost use Rattle.sno_statement.specs.Statement.{Statement, statement_code, IsOneWay, IsRepeat};

    ghost Value = { Statement };

    ghost coded = { statement_code };

    ghost view = { λ s. with_object_and_repeat s.search s.object s.repeat };

    ghost invariant = { λ s. (s.search.object ≡ None) × (s.search.repeat ≡ None) × IfSome s.repeat (λ r. IsRepeat s.object r) × IsOneWay s.repeat s.search.all };
}

/// A part of an object as one whose literals are texts; `None` if its literal is not a text.
fn plain_part(alloc: Global, part: &BytePart) -> Result<Option<Part>, AllocError>
    ensures { IfOk result (λ plain. MatchOption plain (is_plain (part_of part.now) ≡ false) (λ p. (is_plain (part_of part.now) ≡ true) × (p ≡ part_of part.now))) }
{
    match part {
        BytePart::Var(name) => Ok(Some(Part::Var(*name))),
        BytePart::Quoted(bytes) => match Text::new(Vec::from_slice(alloc, bytes.bytes())?) {
            Ok(text) => Ok(Some(Part::Quoted(text))),
            Err(_) => Ok(None),
        },
    }
}

/// The object of these parts as one whose literals are texts; `None` if a literal is not a text.
fn plain_object(alloc: Global, parts: &[BytePart]) -> Result<Option<Object>, AllocError>
    ensures { IfOk result (λ plain. MatchOption plain (list_all is_plain (map part_of parts.now) ≡ false) (λ o. o ≡ map part_of parts.now)) }
{
    let mut plain = Vec::new(alloc);
    for part in parts {
        match plain_part(alloc, part)? {
            None => return Ok(None),
            Some(part) => plain.push(part)?,
        }
    }
    Ok(Some(Object::of(plain)))
}

/// A statement that finds what `search` finds, and replaces it by the value of an object for files, repeated at most this often if at
/// all; `None` if a literal of the object is not a text.
fn replacing_plain(
    alloc: Global,
    search: Statement,
    object: &ByteObject,
    repeat: Option<u32>,
) -> Result<Option<Statement>, AllocError>
    requires repeat { IfSome repeat (λ r. IsRepeat (Some object.now) r) }
    requires one_way { IsOneWay repeat search.all }
    ensures { IfOk result (λ s. MatchOption s (list_all is_plain object.now ≡ false) (λ s. s ≡ with_object_and_repeat search (Some object.now) repeat)) }
{
    match plain_object(alloc, object.parts())? {
        None => Ok(None),
        Some(object) => Ok(Some(search.replacing(Some(object), repeat))),
    }
}

/// A part of an object, for files.
fn byte_part(alloc: Global, part: &Part) -> Result<BytePart, AllocError>
    ensures { IfOk result (λ p. part_of p ≡ part.now) }
{
    match part {
        Part::Var(name) => Ok(BytePart::Var(*name)),
        Part::Quoted(text) => match ByteText::new(Vec::from_slice(alloc, text.bytes())?) {
            Ok(bytes) => Ok(BytePart::Quoted(bytes)),
            Err(_) => unreachable!(),
        },
    }
}

/// The parts of an object, for files.
fn byte_parts(alloc: Global, parts: &[Part]) -> Result<Vec<BytePart>, AllocError>
    ensures { IfOk result (λ v. map part_of v.items ≡ parts.now) }
{
    let mut bytes = Vec::new(alloc);
    for part in parts {
        bytes.push(byte_part(alloc, part)?)?;
    }
    Ok(bytes)
}

impl FileStatement {
    /// A statement that finds what `search` finds, and puts the object's value in place of it, if there is an object. It takes no
    /// memory and is never refused.
    ///
    /// `search` has no object of its own, and so isn't repeated. Its limit of trials counts only if it is performed alone:
    /// [`rewrite`](crate::rewrite) takes a limit of its own.
    pub fn new(search: Statement, object: Option<ByteObject>) -> FileStatement
        requires { search.object ≡ None }
        ensures { result ≡ with_object search object }
    {
        FileStatement {
            search,
            object,
            repeat: None,
        }
    }

    /// A statement for texts as one for files. Its object's literals are copied. Refused only if out of memory.
    pub fn of(alloc: Global, statement: Statement) -> Result<FileStatement, AllocError>
        ensures { IfOk result (λ s. s ≡ statement) }
    {
        let (search, object, repeat) = statement.split();
        let object = match &object {
            None => None,
            Some(object) => Some(ByteObject::of(byte_parts(alloc, object.parts())?)),
        };
        Ok(FileStatement {
            search,
            object,
            repeat,
        })
    }

    /// This statement with this limit of trials, 1 to 1,000,000,000. It takes no memory and is never refused.
    pub fn limited(self, limit: u32) -> FileStatement
        requires { IsLimit limit }
        ensures { result ≡ with_limit self limit }
    {
        let FileStatement {
            search,
            object,
            repeat,
        } = self;
        FileStatement {
            search: search.limited(limit),
            object,
            repeat,
        }
    }

    /// This statement for all matches, in one pass over the text. It is then not repeated. It takes no memory and is never refused.
    pub fn for_all(self) -> FileStatement
        ensures { result ≡ with_all self }
    {
        let FileStatement { search, object, .. } = self;
        FileStatement {
            search: search.for_all(),
            object,
            repeat: None,
        }
    }

    /// This statement in at most `rounds` rounds, 1 to 1,000. It has to have an object, and must not be for all matches. It takes no
    /// memory and is never refused.
    pub fn repeated(self, rounds: u32) -> FileStatement
        requires object { IsRepeat self.object rounds }
        requires one_way { self.all ≡ false }
        ensures { result ≡ with_repeat self rounds }
    {
        let mut repeated = self;
        repeated.repeat = Some(rounds);
        repeated
    }

    /// What it finds, as a statement that only matches.
    pub fn search(&self) -> &Statement
        ensures { result.now ≡ searching self.now }
    {
        &self.search
    }

    /// The object, if the statement replaces; `None` if it only matches.
    pub fn object(&self) -> Option<&ByteObject>
        ensures { option_map (λ o. o.now) result ≡ self.now.object }
    {
        self.object.as_ref()
    }

    /// How many rounds there may be, 1 to 1,000, if the statement is repeated; then it has an object. `None` if it is performed once.
    pub fn repeat(&self) -> Option<u32>
        ensures value { result ≡ self.now.repeat }
        ensures within { IfSome self.now.repeat (λ r. IsRepeat self.now.object r) }
    {
        self.repeat
    }

    /// This statement as one that is performed on texts; `None` if a literal of its object is not a text, since it has a byte above 127
    /// or more than 65,536.
    pub fn for_texts(self, alloc: Global) -> Result<Option<Statement>, AllocError>
        ensures { IfOk result (λ s. MatchOption s (IfSome self.object (λ parts. list_all is_plain parts ≡ false) × (self.object ≡ None → ⊥)) (λ s. s ≡ self)) }
    {
        let FileStatement {
            search,
            object,
            repeat,
        } = self;
        match &object {
            None => Ok(Some(search.replacing(None, repeat))),
            Some(object) => replacing_plain(alloc, search, object, repeat),
        }
    }
}
