//! Figures, as text.

use crate::command::StatusForm;
use std::fmt::Display;
use std::io::{Result, Write};

/// Whether a figure only grows.
#[derive(Clone, Copy, Debug, PartialEq, Eq)]
pub enum Growth {
    Counter,
    Gauge,
}

/// A writer that gets figures in some form, one after another.
#[derive(Drop)]
pub struct Report<'a, W> {
    form: StatusForm,
    writer: &'a mut W,
    // How many parts the family has so far that is written.
    parts: u64,
}

impl<'a, W: Write> Report<'a, W> {
    /// A report of this edition.
    pub fn begin(form: StatusForm, writer: &'a mut W, edition: &str) -> Result<Report<'a, W>> {
        match form {
            StatusForm::Text => write!(writer, "edition {edition}\n")?,
            StatusForm::Prometheus => {
                write!(writer, "# TYPE sysr_info gauge\n")?;
                write!(writer, "sysr_info{{edition=\"{edition}\"}} 1\n")?;
            }
            StatusForm::Json => write!(writer, "{{\"edition\":\"{edition}\"")?,
        }
        let parts = 0;
        Ok(Report {
            form,
            writer,
            parts,
        })
    }

    /// A figure of this name.
    pub fn figure(&mut self, name: &str, growth: Growth, value: u64) -> Result<()> {
        let writer = &mut *self.writer;
        match (self.form, growth) {
            (StatusForm::Text, _) => write!(writer, "{name} {value}\n"),
            (StatusForm::Json, _) => write!(writer, ",\"{name}\":{value}"),
            (StatusForm::Prometheus, Growth::Gauge) => {
                write!(writer, "# TYPE sysr_{name} gauge\nsysr_{name} {value}\n")
            }
            (StatusForm::Prometheus, Growth::Counter) => {
                write!(writer, "# TYPE sysr_{name}_total counter\n")?;
                write!(writer, "sysr_{name}_total {value}\n")
            }
        }
    }

    /// Begins a family of counters.
    pub fn begin_family(&mut self, name: &str) -> Result<()> {
        self.parts = 0;
        match self.form {
            StatusForm::Text => Ok(()),
            StatusForm::Json => write!(self.writer, ",\"{name}\":{{"),
            StatusForm::Prometheus => write!(self.writer, "# TYPE sysr_{name}_total counter\n"),
        }
    }

    /// A counter of the family of this name, by what it is of.
    pub fn part<D: Display + Drop>(
        &mut self,
        name: &str,
        label: &str,
        of: D,
        value: u64,
    ) -> Result<()> {
        let comma = if self.parts == 0 { "" } else { "," };
        self.parts = self.parts.saturating_add(1);
        let writer = &mut *self.writer;
        match self.form {
            StatusForm::Text => write!(writer, "{name} {of} {value}\n"),
            StatusForm::Json => write!(writer, "{comma}\"{of}\":{value}"),
            StatusForm::Prometheus => {
                write!(writer, "sysr_{name}_total{{{label}=\"{of}\"}} {value}\n")
            }
        }
    }

    /// Ends a family.
    pub fn end_family(&mut self) -> Result<()> {
        match self.form {
            StatusForm::Json => write!(self.writer, "}}"),
            _ => Ok(()),
        }
    }

    /// Ends the report.
    pub fn end(&mut self) -> Result<()> {
        match self.form {
            StatusForm::Json => write!(self.writer, "}}\n"),
            _ => Ok(()),
        }
    }
}
