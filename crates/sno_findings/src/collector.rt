//! Findings, as they are collected.

use crate::{ElementLines, Excerpt, Form, Mistake, Place, Warning};
use sno_document::DocumentFault;
use std::alloc::{AllocError, Global};

/// From how many findings on no nearest names are sought, so that a check takes no quadratic time.
const MANY: usize = 1_000;

/// Findings, as they are collected.
#[derive(Drop)]
pub struct Collector {
    /// Where the findings are kept.
    pub alloc: Global,
    /// How what is checked is written.
    pub form: Form,
    /// Why the bytes are not a document, as far as was found.
    pub errors: Vec<Mistake>,
    /// What is probably not meant, as far as was found.
    pub warnings: Vec<Warning>,
}

impl Collector {
    /// No findings.
    pub fn new(alloc: Global, form: Form) -> Collector {
        Collector {
            alloc,
            form,
            errors: Vec::new(alloc),
            warnings: Vec::new(alloc),
        }
    }

    /// Whether there are too many findings for nearest names to be sought for more.
    pub fn has_many(&self) -> bool {
        self.errors.len() >= MANY || self.warnings.len() >= MANY
    }

    /// Adds an error of the part that has the fault. Refused only if memory runs out.
    pub fn refuse(
        &mut self,
        fault: DocumentFault,
        excerpt: Option<Excerpt>,
        advice: String,
    ) -> Result<(), AllocError> {
        self.refuse_at(Place::of_fault(&fault), fault, excerpt, advice)
    }

    /// Adds an error of this part. Refused only if memory runs out.
    pub fn refuse_at(
        &mut self,
        place: Place,
        fault: DocumentFault,
        excerpt: Option<Excerpt>,
        advice: String,
    ) -> Result<(), AllocError> {
        self.errors.push(Mistake {
            fault,
            place,
            line: None,
            excerpt,
            advice,
        })?;
        Ok(())
    }

    /// Adds an error without an excerpt. Refused only if memory runs out.
    pub fn refuse_plainly(&mut self, fault: DocumentFault, advice: &str) -> Result<(), AllocError> {
        let advice = String::from_str(self.alloc, advice)?;
        self.refuse(fault, None, advice)
    }

    /// Adds a warning. Refused only if memory runs out.
    pub fn warn(&mut self, place: Place, message: String) -> Result<(), AllocError> {
        self.warnings.push(Warning {
            place,
            line: None,
            message,
        })?;
        Ok(())
    }

    /// Gives each error the line on which its part begins.
    pub fn number_errors(&mut self, lines: &ElementLines) {
        for mistake in self.errors.iter_mut() {
            mistake.line = lines.line_of(mistake.place);
        }
    }

    /// Gives each warning the line on which its part begins.
    pub fn number_warnings(&mut self, lines: &ElementLines) {
        for warning in self.warnings.iter_mut() {
            warning.line = lines.line_of(warning.place);
        }
    }
}
