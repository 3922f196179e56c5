//! The grammar of JSON, token by token: which token may come next.

use json::{Token, Value};
use sno_document::MAX_DEPTH;
use std::alloc::{AllocError, Global};

/// What is open at a place of the document.
#[derive(Clone, Copy, Debug, PartialEq, Eq)]
enum Container {
    Array,
    Object,
}

/// What is due at a place of the document.
#[derive(Clone, Copy, Debug, PartialEq, Eq)]
pub(crate) enum Due {
    /// A value, after the name of a member or at the beginning.
    Value,
    /// An element of an array, or its end.
    Element,
    /// The name of a member, or the end of the object.
    Name,
    /// Nothing, after the document.
    Nothing,
}

impl Due {
    /// What is wanted.
    pub(crate) fn wanted(self) -> &'static str {
        match self {
            Due::Value => "a value is wanted here",
            Due::Element => "a comma or ] is wanted here",
            Due::Name => "a comma, a member with its name in \" or } is wanted here",
            Due::Nothing => "the document is one JSON object; nothing comes after it",
        }
    }
}

/// A walk over the tokens of a document.
#[derive(Drop)]
pub(crate) struct Walk {
    open: Vec<Container>,
    pub(crate) due: Due,
}

impl Walk {
    pub(crate) fn new(alloc: Global) -> Walk {
        Walk {
            open: Vec::new(alloc),
            due: Due::Value,
        }
    }

    fn after_value(&mut self) {
        self.due = match self.open.last() {
            Some(Container::Array) => Due::Element,
            Some(Container::Object) => Due::Name,
            None => Due::Nothing,
        };
    }

    fn begin(&mut self, container: Container) -> Result<Option<&'static str>, AllocError> {
        if self.open.len() >= MAX_DEPTH {
            return Ok(Some("arrays and objects nest at most 127 deep"));
        }
        self.open.push(container)?;
        self.after_value();
        Ok(None)
    }

    fn end(&mut self) -> Option<&'static str> {
        let _ended = self.open.pop();
        self.after_value();
        None
    }

    fn scalar(&mut self) -> Option<&'static str> {
        self.after_value();
        None
    }

    fn number(&mut self, text: &str) -> Option<&'static str> {
        let value: Value<'_> = Value::Number(text);
        match value.as_f64() {
            Some(number) if number.is_finite() => self.scalar(),
            _ => Some("this number is too large"),
        }
    }

    /// Takes the token where a value may come.
    fn take_value(&mut self, token: &Token<'_>) -> Result<Option<&'static str>, AllocError> {
        match token {
            Token::BeginObject => self.begin(Container::Object),
            Token::BeginArray => self.begin(Container::Array),
            Token::Number(text) => Ok(self.number(text)),
            Token::String(_) | Token::Bool(_) | Token::Null => Ok(self.scalar()),
            Token::Key(_) => Ok(Some("only objects, between { and }, have members")),
            Token::EndObject | Token::EndArray | Token::Bad => Ok(Some(self.due.wanted())),
        }
    }

    /// Whether the token is the name of a member without its colon.
    pub(crate) fn wants_colon(&self, token: &Token<'_>) -> bool {
        matches!((self.due, token), (Due::Name, Token::String(_)))
    }

    /// Takes the next token. Returns what was wanted instead, if it can't come here.
    pub(crate) fn take(&mut self, token: &Token<'_>) -> Result<Option<&'static str>, AllocError> {
        match (self.due, token) {
            (Due::Nothing, _) => Ok(Some(self.due.wanted())),
            (Due::Name, Token::Key(_)) => {
                self.due = Due::Value;
                Ok(None)
            }
            (Due::Name, Token::EndObject) | (Due::Element, Token::EndArray) => Ok(self.end()),
            (Due::Name, Token::String(_)) => Ok(Some("a : is wanted after the name of a member")),
            (Due::Name, _) => Ok(Some(self.due.wanted())),
            (Due::Value | Due::Element, _) => self.take_value(token),
        }
    }
}
