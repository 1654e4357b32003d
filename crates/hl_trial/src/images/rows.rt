//! Rows of tables that are spelled as text.

use hl_nodes::Rule;
use std::alloc::{AllocError, Global};

/// A row: `NAME: CHANGES; WANTED`.
#[derive(Clone, Copy)]
pub struct Row<'a> {
    /// What is changed, in words.
    pub name: &'a str,
    /// The changes, as `change` reads them.
    pub changes: &'a str,
    /// What is wanted then.
    pub wanted: &'a str,
}

pub fn row_of(line: &str) -> Option<Row<'_>> {
    let (name, rest) = line.split_once(":")?;
    let (changes, wanted) = rest.split_once(";")?;
    Some(Row {
        name,
        changes,
        wanted,
    })
}

/// The numbers of a text, and none for each word that isn't one.
pub fn numbers(alloc: Global, text: &str) -> Result<Vec<Option<u32>>, AllocError> {
    let mut all = Vec::new(alloc);
    for word in text.split_whitespace() {
        all.push(word.parse::<u32>().ok())?;
    }
    Ok(all)
}

/// The numbers of rules, in the form of `numbers`.
pub fn rule_numbers(alloc: Global, rules: &[Rule]) -> Result<Vec<Option<u32>>, AllocError> {
    let mut all = Vec::new(alloc);
    for rule in rules {
        all.push(Some(rule.number()))?;
    }
    Ok(all)
}
