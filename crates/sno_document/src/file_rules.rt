//! Rules for files, once they are read.
use sno_pattern::Rules;
use sno_statement::FileStatement;
use std::sync::Arc;

/// Statements for files, with the definitions that they refer to.
#[derive(Drop)]
pub struct FileRules {
    /// The definitions, admitted.
    pub rules: Arc<Rules>,
    /// The statements in their order, numbered from 1.
    pub statements: Vec<FileStatement>,
}
