//! What sections are made of.

ghost use Rattle.std.specs.Prelude.{◌≡◌, ◌++◌, ◌∷◌, [], map, IfOk, OnOk};
ghost use Rattle.clr_html.specs.Words.{words_of_row, words_of_text};
ghost use Rattle.clr_page_parts.specs.Shown.{Heading, Table as ShownTable, heads_of, rows_of, said, section_shown, shown};

use clr_html::{Block, InlineText, Section, Table, TableRow};
use std::alloc::{AllocError, Global};

/// Blocks that become a section.
#[derive(Drop)]
pub struct Builder {
    pub alloc: Global,
    pub blocks: Vec<Block>,
}

/// Returns a plain text.
pub fn plain_text(alloc: Global, words: &str) -> Result<InlineText, AllocError>
    ensures { IfOk result (λ text. words_of_text text ≡ words.now) }
{
    Ok(InlineText::Plain(Vec::from_slice(alloc, words.as_bytes())?))
}

/// Returns a text in bold letters.
fn strong_text(alloc: Global, words: &str) -> Result<InlineText, AllocError>
    ensures { IfOk result (λ text. words_of_text text ≡ words.now) }
{
    Ok(InlineText::Strong(Vec::from_slice(alloc, words.as_bytes())?))
}

/// Returns an empty table with these heads.
pub fn table_of(alloc: Global, heads: &[&str]) -> Result<Table, AllocError>
    ensures heads { IfOk result (λ table. heads_of table ≡ map (λ head. head.now) heads.now) }
    ensures rows { IfOk result (λ table. table.rows.items ≡ []) }
{
    let mut texts = Vec::with_capacity(alloc, heads.len())?;
    for head in heads {
        texts.push(plain_text(alloc, head)?)?;
    }
    Ok(Table {
        heads: texts,
        rows: Vec::new(alloc),
    })
}

/// Returns the text of a cell, in bold letters where it is the first.
fn cell_text(alloc: Global, is_first: bool, words: &str) -> Result<InlineText, AllocError>
    ensures { IfOk result (λ text. words_of_text text ≡ words.now) }
{
    if is_first {
        strong_text(alloc, words)
    } else {
        plain_text(alloc, words)
    }
}

/// Returns a row of cells, the first of them in bold letters.
pub fn row_of(alloc: Global, cells: &[&str]) -> Result<TableRow, AllocError>
    ensures { IfOk result (λ row. words_of_row row ≡ map (λ cell. cell.now) cells.now) }
{
    let mut texts = Vec::with_capacity(alloc, cells.len())?;
    for cell in cells {
        let text = cell_text(alloc, texts.is_empty(), cell)?;
        texts.push(text)?;
    }
    Ok(TableRow { cells: texts })
}

impl Builder {
    /// Returns a section with nothing in it.
    pub fn new(alloc: Global) -> Builder
        ensures { result.blocks.items ≡ [] }
    {
        Builder {
            alloc,
            blocks: Vec::new(alloc),
        }
    }

    /// Adds a heading.
    pub fn add_heading(&mut self, words: &str) -> Result<(), AllocError>
        ensures { OnOk result (map shown self.new.blocks.items ≡ map shown self.old.blocks.items ++ Heading words.now ∷ []) }
    {
        let words = Vec::from_slice(self.alloc, words.as_bytes())?;
        self.add(Block::Heading(words))
    }

    /// Adds a paragraph, where there are words for one.
    pub fn add_paragraph(&mut self, words: &str) -> Result<(), AllocError>
        ensures { OnOk result (map shown self.new.blocks.items ≡ map shown self.old.blocks.items ++ said words.now) }
    {
        if words.is_empty() {
            return Ok(());
        }
        let text = plain_text(self.alloc, words)?;
        self.add(Block::Paragraph(text))
    }

    /// Adds a table.
    pub fn add_table(&mut self, table: Table) -> Result<(), AllocError>
        ensures { OnOk result (map shown self.new.blocks.items
            ≡ map shown self.old.blocks.items ++ ShownTable (heads_of table) (rows_of table) ∷ []) }
    {
        self.add(Block::Table(table))
    }

    /// Adds a block.
    pub fn add(&mut self, block: Block) -> Result<(), AllocError>
        ensures { OnOk result (map shown self.new.blocks.items ≡ map shown self.old.blocks.items ++ shown block ∷ []) }
    {
        Ok(self.blocks.push(block)?)
    }

    /// Returns the section.
    pub fn into_section(self) -> Section
        ensures { section_shown result ≡ map shown self.blocks.items }
    {
        Section {
            blocks: self.blocks,
        }
    }
}
