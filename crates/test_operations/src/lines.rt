//! The lines of a row of forms.
use crate::worked::{Worked, told_of};
use std::alloc::{AllocError, Global};
use test_kit::{fields_in, number_at, push_number};

/// The attributes and the number of buffers, and the operations and commits, one in each line.
#[derive(Drop)]
pub struct Lines {
    row: String,
    turns: String,
}

fn push_line(lines: &mut String, line: &str) -> Result<(), AllocError> {
    lines.push_str(line)?;
    lines.push_str("\n")
}

/// Writes what is after the number of a document in a put of a value, or in one without a value.
fn push_put(turns: &mut String, value: Option<&str>) -> Result<(), AllocError> {
    let Some(value) = value else {
        return turns.push_str("\",\"fields\":{}}\n");
    };
    turns.push_str("\",\"fields\":{\"f\":")?;
    turns.push_str(value)?;
    turns.push_str("}}\n")
}

impl Lines {
    /// Returns a row with its attributes and its number of buffers.
    pub fn new(alloc: Global, row: &str) -> Result<Lines, AllocError> {
        Ok(Lines {
            row: String::from_str(alloc, row)?,
            turns: String::new(alloc),
        })
    }

    /// Takes puts of a value to documents from one to another, or puts without a value.
    fn take_puts(&mut self, first: u32, last: u32, value: Option<&str>) -> Result<(), AllocError> {
        for doc in first..last.saturating_add(1) {
            push_number(&mut self.turns, "{\"put\":\"id:n:t::", i64::from(doc))?;
            push_put(&mut self.turns, value)?;
        }
        Ok(())
    }

    /// Takes removes of documents from one to another.
    fn take_removes(&mut self, first: u32, last: u32) -> Result<(), AllocError> {
        for doc in first..last.saturating_add(1) {
            push_number(&mut self.turns, "{\"remove\":\"id:n:t::", i64::from(doc))?;
            self.turns.push_str("\"}\n")?;
        }
        Ok(())
    }

    /// Takes a line that stands for several operations. Another one is a comment, and is skipped.
    fn take_many(&mut self, line: &str) -> Result<(), AllocError> {
        let first = number_at(line, 1);
        let last = number_at(line, 2);
        match line.split(' ').next() {
            Some("puts") => self.take_puts(first, last, line.split(' ').skip(3).next()),
            Some("removes") => self.take_removes(first, last),
            _ => Ok(()),
        }
    }

    /// Takes one more line. A comment is skipped.
    pub fn take(&mut self, line: &str) -> Result<(), AllocError> {
        if line == "commit" || line.starts_with('{') {
            return push_line(&mut self.turns, line);
        }
        self.take_many(line)
    }

    fn row(&self) -> Worked<'_> {
        Worked {
            buffers: number_at(&self.row, 1),
            dense: number_at(&self.row, 2) != 0,
            lines: self.turns.as_str(),
        }
    }

    /// Returns the result of the row, if it names one to eight attributes.
    pub fn answer(&self, alloc: Global) -> Result<String, AllocError> {
        match fields_in(alloc, &self.row)? {
            Some(fields) => told_of(alloc, &fields, self.row()),
            None => String::from_str(alloc, "no attribute"),
        }
    }
}
